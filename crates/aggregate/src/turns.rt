// The requests of a list, each in its turn.
ghost use Rattle.std.specs.Prelude.{◌≡◌, Ok, length};
ghost use Rattle.requests.specs.Lists.{one_if_combine};
ghost use Rattle.aggregate.specs.Running as spec;
ghost use Rattle.aggregate.specs.Told.{told_outcome, told_stop};
ghost use Rattle.aggregate.specs.inner.Turns.{Starting, HasPlace, Addable};

use crate::later::Later;
use crate::links::Links;
use crate::{Outcome, Ran, Stop, Totals, act, serve};
use requests::{Judged, Request};
use session::Session;
use trace::Trace;

// The requests of an accepted list to a sound session, up to the first that is refused. The session's
// tree is linked once, and what a request needs besides serves one after the other. No goal here needs
// `never_zero`: by it a branch that is never taken proves, and so the edit `goes_on_after_a_refusal`, which
// adds a branch, is refused for what it does there.
#[tactic(auto, using(crate::proofs::Stopping::never_zero))]
pub fn whole(
    mut session: Session,
    list: &[u8],
    judged: Judged,
    answers: &mut [i64],
    log: &mut [u8],
    place: usize,
) -> Ran
    requires { Starting session list.now (length answers.old) judged.requests judged.first }
    ensures { (told_stop result.stopped result.totals result.session ≡ spec.ran_of session list.now answers.old log.old place)
        × (answers.new ≡ spec.answers_of session list.now answers.old log.old place)
        × (log.new ≡ spec.run_log_of session list.now answers.old log.old place) }
{
    let links = Links::of(&session.tree);
    let mut later = Later::none();
    let mut trace = Trace::new();
    let mut at = judged.first;
    let mut totals = Totals {
        requests: 0,
        answers: 0,
        messages: 0,
        next: place,
    };
    for index in 0..judged.requests {
        // An accepted list has every request: none is short.
        let Ok((request, after)) = requests::request_at(list, at) else {
            return Ran {
                stopped: None,
                totals,
                session,
            };
        };
        let (x, act) = act::of(request);
        let served = serve::request(
            &mut session,
            &links,
            &mut later,
            &mut trace,
            x,
            act,
            log,
            totals.next,
        );
        match served {
            Ok(outcome) => {
                let stored = store(answers, totals.answers, request, outcome.answer);
                totals = added(totals, stored, outcome);
            }
            Err(refusal) => {
                return Ran {
                    stopped: Some(Stop { index, refusal }),
                    totals,
                    session,
                };
            }
        }
        at = after;
    }
    Ran {
        stopped: None,
        totals,
        session,
    }
}

// Stores a combine's answer at its place, and answers how many answers were stored.
fn store(answers: &mut [i64], k: usize, request: Request, answer: i64) -> usize
    requires { HasPlace request k (length answers.old) }
    ensures { (result ≡ one_if_combine request) × (answers.new ≡ spec.stored request answer k answers.old) }
{
    match request {
        Request::Combine(_) => {
            answers[k] = answer;
            1
        }
        Request::Write(_, _) => 0,
    }
}

// The totals with one more request done.
fn added(totals: Totals, stored: usize, outcome: Outcome) -> Totals
    requires { Addable totals stored (told_outcome (Ok outcome)) }
    ensures { result ≡ spec.added stored (told_outcome (Ok outcome)) totals }
{
    Totals {
        requests: totals.requests + 1,
        answers: totals.answers + stored,
        messages: totals.messages + outcome.messages,
        next: outcome.next,
    }
}
