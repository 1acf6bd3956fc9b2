// A request as an act at a node: what a combine and a write do in their turn.
ghost use Rattle.std.specs.Prelude.{◌≡◌, ◌<◌, length};
ghost use Rattle.requests.specs.Lists.{Small};
ghost use Rattle.mechanism.specs.Views.{view};
ghost use Rattle.trace.specs.inner.Traces as traces;
ghost use Rattle.aggregate.specs.inner.Afters.{Raisable};
ghost use Rattle.aggregate.specs.inner.Acts as spec;

use crate::ground::Ground;
use crate::later::Later;
use crate::{ask, raise, spread};
use requests::Request;
use session::Session;
use trace::Trace;

// A request without its node, which any number may stand for. Three steps match on it: it has two
// cases, both known, and a trait or closures in its place would have each step twice, with the same laws.
// Node and act are two: a struct of both would be taken apart again in each step.
#[derive(Clone, Copy)]
pub enum Act {
    Combine,
    Write(i32),
}

// The node of a request, and what it does there.
pub fn of(request: Request) -> (usize, Act)
    ensures { spec.request_of result.0 result.1 ≡ request }
{
    match request {
        Request::Combine(x) => (usize::from(x), Act::Combine),
        Request::Write(x, value) => (usize::from(x), Act::Write(value)),
    }
}

// A write sets its value before its walk.
pub fn begin(act: Act, session: &mut Session, x: usize)
    requires { x < 256 }
    ensures { (session.new ≡ spec.begun_of session.old x act) × Small (spec.request_of x act) }
{
    match act {
        Act::Combine => {}
        Act::Write(value) => session.values[x] = value,
    }
}

// The walk, from an empty trace, and its sum. `later` is room for what a write lays by.
pub fn walk(act: Act, ground: Ground<'_>, later: &mut Later, trace: &mut Trace, x: usize) -> i64
    requires { spec.Walkable (view ground.session.now) ground.links.now.first ground.links.now.next x }
    ensures { spec.Walked act (view ground.entry.session.now) x result (traces.trace trace.old.numbers 0) trace.new }
{
    trace.len = 0;
    match act {
        Act::Combine => {
            let count = usize::from(ground.session.tree.count);
            ask::ask(ground, trace, x, x, count)
        }
        Act::Write(_) => {
            spread::from(ground, later, trace, x);
            0
        }
    }
}

// A combine raises every pair that points to its node.
pub fn settle(act: Act, session: &mut Session, x: usize)
    requires { Raisable session.old x }
    ensures { session.new ≡ spec.settled_of session.old x act }
{
    match act {
        Act::Combine => raise::raise(session, x),
        Act::Write(_) => {}
    }
}
