// The walk of a combine: reads a session, and adds messages to a lent trace.
ghost use Rattle.mechanism.specs.Views.{view};
ghost use Rattle.walk.specs.inner.Asking.{Asking, Visiting, Replied, Visited};

use crate::ground::Ground;
use messages::Message;
use trace::Trace;

// u, come from a neighbour or from nowhere (itself, as the definition has it), asks those of its other neighbours in turn from which it
// holds no lease, and answers the sum.
#[cycle(ask_visit)]
pub fn ask(ground: Ground<'_>, trace: &mut Trace, u: usize, from: usize, left: usize) -> i64
    requires { Asking (view ground.session.now) ground.links.now.first ground.links.now.next u from }
    ensures { Replied (view ground.entry.session.now) left u from trace.old result trace.new }
{
    let mut sum = ground.value(u);
    if left == 0 {
        return sum;
    }
    for w in ground.neighbours(u) {
        sum = visit(ground, trace, u, from, left - 1, w, sum);
    }
    sum
}

// One neighbour w of u: left out if u came from it; where u holds a lease from w, its cache is taken;
// else w is asked. Answers the sum with what w adds.
#[cycle(ask_visit)]
fn visit(
    ground: Ground<'_>,
    trace: &mut Trace,
    u: usize,
    from: usize,
    left: usize,
    w: usize,
    sum: i64,
) -> i64
    requires { Visiting (view ground.session.now) ground.links.now.first ground.links.now.next left u from w sum }
    ensures { Visited (view ground.entry.session.now) left u from w sum trace.old result trace.new }
{
    if w == from {
        return sum;
    }
    if ground.lease(w, u) != 0 {
        return sum + ground.cache(w, u);
    }
    trace.push(Message::Probe(u as u8, w as u8));
    let heard = ask(ground, trace, w, u, left);
    trace.push(Message::Response(w as u8, u as u8, heard));
    sum + heard
}
