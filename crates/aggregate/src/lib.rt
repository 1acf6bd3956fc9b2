// Sessions served: combine, write, and running a list of them.
//
// Every public function takes whatever it is handed and has one outcome. A refused call leaves all lent
// memory as it was; a list that stops midway keeps what its earlier requests did. A log and a place in it
// are two arguments, as document 01 names them.
#![tactic(auto)]

mod act; // what a combine and a write do in their turn
mod apply; // what messages make of a session
mod ask; // the walk of a combine
mod ground; // what the walks read
mod judge; // whether a request is refused before its walk
mod later; // what comes after each neighbour
mod links; // each node's neighbours, one after the other
mod raise; // a combine raises every pair that points to its node
mod serve; // one request, served in place
mod spread; // the walk of a write
mod turns; // the requests of a list, each in its turn

ghost use Rattle.std.specs.Prelude.{◌≡◌, length};
ghost use Rattle.refusal.specs.Numbers.{refusal_in};
ghost use Rattle.requests.specs.declared.Request.TheVariants.{Combine, Write};
ghost use Rattle.aggregate.specs.Serving.{served_of, log_of};
ghost use Rattle.aggregate.specs.Running.{list_refusal, ran_of, answers_of, run_log_of};
ghost use Rattle.aggregate.specs.Told.{told_served, told_ran};

use act::Act;
use refusal::Refusal;
use requests::Request;
use session::Session;

// What a request answers: the answer (0 for a write, as document 01 says), its messages and the next log
// place.
#[repr(C)]
#[derive(Clone, Copy, Debug, PartialEq, Eq)]
pub struct Outcome {
    pub answer: i64,
    pub messages: u32,
    pub next: usize,
}

// The outcome of a request, and the session after.
#[repr(C)]
#[derive(Clone, Copy)]
pub struct Served {
    pub outcome: Outcome,
    pub session: Session,
}

// How far a list came: requests done, answers stored, messages, and the next log place.
#[repr(C)]
#[derive(Clone, Copy, Debug, PartialEq, Eq)]
pub struct Totals {
    pub requests: usize,
    pub answers: usize,
    pub messages: u32,
    pub next: usize,
}

// The request of a list that was refused: its index, which is the number of those done, and why.
#[derive(Clone, Copy, Debug, PartialEq, Eq)]
pub struct Stop {
    pub index: usize,
    pub refusal: Refusal,
}

// What running a list answers: the request at which it stopped, if one was refused; the totals so far;
// and the session after.
#[derive(Clone, Copy)]
pub struct Ran {
    pub stopped: Option<Stop>,
    pub totals: Totals,
    pub session: Session,
}

// A combine at node x, logged from place on. Refusals: 6 the session is unsound, 7 the node is not in
// the tree, 8 1,048,576 requests are already accepted, 9 the place is past the usable log or there
// are too few bits for all records.
pub fn combine(session: Session, x: usize, log: &mut [u8], place: usize) -> Result<Served, Refusal>
    ensures { (told_served session result ≡ served_of session (Combine x) (length log.old) place) × (log.new ≡ log_of session (Combine x) log.old place) }
{
    serve::whole(session, x, Act::Combine, log, place)
}

// A write of a value at node x, logged from place on. Refusals: as for a combine.
pub fn write(
    session: Session,
    x: usize,
    value: i32,
    log: &mut [u8],
    place: usize,
) -> Result<Served, Refusal>
    ensures { (told_served session result ≡ served_of session (Write x value) (length log.old) place) × (log.new ≡ log_of session (Write x value) log.old place) }
{
    serve::whole(session, x, Act::Write(value), log, place)
}

// A request, such as `requests::request_at` reads of a list, logged from place on: the combine or the
// write that it is. Refusals: as for a combine.
pub fn request(
    session: Session,
    request: Request,
    log: &mut [u8],
    place: usize,
) -> Result<Served, Refusal>
    ensures { (told_served session result ≡ served_of session request (length log.old) place) × (log.new ≡ log_of session request log.old place) }
{
    let (x, act) = act::of(request);
    serve::whole(session, x, act, log, place)
}

// The requests of a list, each logged where the one before ended, the answers of combines one behind
// the other in the answer places; up to the first request that is refused, as combine and write
// refuse it. Refusals of the whole list: those of `requests::judge`, 10 fewer answer places than
// combines, 6 the session is unsound. That the session is sound is tested once.
pub fn run(
    session: Session,
    list: &[u8],
    answers: &mut [i64],
    log: &mut [u8],
    place: usize,
) -> Result<Ran, Refusal>
    ensures { (told_ran session result ≡ ran_of session list.now answers.old log.old place)
        × (answers.new ≡ answers_of session list.now answers.old log.old place)
        × (log.new ≡ run_log_of session list.now answers.old log.old place)
        × (refusal_in result ≡ list_refusal session list.now (length answers.old)) }
{
    let judged = requests::judge(list)?;
    if answers.len() < judged.combines {
        return Err(Refusal::FewAnswers);
    }
    if !session.is_sound() {
        return Err(Refusal::Unsound);
    }
    Ok(turns::whole(session, list, judged, answers, log, place))
}
