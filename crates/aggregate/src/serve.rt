// One request, served in place.
ghost use Rattle.std.specs.Prelude.{◌≡◌, length};
ghost use Rattle.session.specs.Holding.{Typed};
ghost use Rattle.session.specs.Soundness.{Sound};
ghost use Rattle.aggregate.specs.Serving.{served_of, log_of};
ghost use Rattle.aggregate.specs.Told.{told_outcome, told_served};
ghost use Rattle.aggregate.specs.inner.Acts.{request_of, served_as, Servable};

use crate::act::Act;
use crate::ground::Ground;
use crate::later::Later;
use crate::links::Links;
use crate::{Outcome, Served, act, apply, judge};
use refusal::Refusal;
use session::Session;
use trace::Trace;

// A request to any session. Refusals: 6 the session is unsound, and those of a request to a sound one.
pub fn whole(
    mut session: Session,
    x: usize,
    act: Act,
    log: &mut [u8],
    place: usize,
) -> Result<Served, Refusal>
    ensures { (told_served session result ≡ served_of session (request_of x act) (length log.old) place) × (log.new ≡ log_of session (request_of x act) log.old place) }
{
    if !session.is_sound() {
        return Err(Refusal::Unsound);
    }
    let outcome = tested(&mut session, x, act, log, place)?;
    Ok(Served { outcome, session })
}

// A request to a sound session: its tree is linked, and what a request needs besides is made for it.
fn tested(
    session: &mut Session,
    x: usize,
    act: Act,
    log: &mut [u8],
    place: usize,
) -> Result<Outcome, Refusal>
    requires typed { Typed session.old }
    requires holds { Sound 2 session.old }
    ensures { (served_as (told_outcome result) session.new ≡ served_of session.old (request_of x act) (length log.old) place) × (log.new ≡ log_of session.old (request_of x act) log.old place) }
{
    let links = Links::of(&session.tree);
    let mut later = Later::none();
    let mut trace = Trace::new();
    request(session, &links, &mut later, &mut trace, x, act, log, place)
}

// A request to a sound session, whose tree has these links. Room for what comes after each neighbour
// and for its messages is lent too.
pub fn request(
    session: &mut Session,
    links: &Links,
    later: &mut Later,
    trace: &mut Trace,
    x: usize,
    act: Act,
    log: &mut [u8],
    place: usize,
) -> Result<Outcome, Refusal>
    requires { Servable session.old links.now.first links.now.next }
    ensures { (served_as (told_outcome result) session.new ≡ served_of session.old (request_of x act) (length log.old) place) × (log.new ≡ log_of session.old (request_of x act) log.old place) }
{
    judge::early(session, x)?;
    let held = session.values[x];
    act::begin(act, session, x);
    let answer = act::walk(act, Ground { session, links }, later, trace, x);
    let Ok(next) = trace.log(log, place) else {
        session.values[x] = held;
        return Err(Refusal::NoRoom);
    };
    apply::apply(session, trace);
    act::settle(act, session, x);
    session.accepted += 1;
    Ok(Outcome {
        answer,
        messages: trace.len as u32,
        next,
    })
}
