// The walk of a write: reads a session, and adds messages to a lent trace.
ghost use Rattle.std.specs.Prelude.{◌≡◌, true};
ghost use Rattle.tree.specs.Operation as operation;
ghost use Rattle.session.specs.Holding.{lease_of};
ghost use Rattle.mechanism.specs.Views.{view};
ghost use Rattle.mechanism.specs.Spreading.{write};
ghost use Rattle.trace.specs.inner.Traces as traces;
ghost use Rattle.walk.specs.inner.Telling.{SilentUpTo, Spreading, Telling, Spread, Told};
ghost use Rattle.aggregate.specs.inner.Acts.{Walkable};
ghost use Rattle.aggregate.specs.inner.Rounds.{At};

use crate::ground::Ground;
use crate::later::{self, Later};
use messages::Message;
use trace::Trace;

// The walk of a write at x, whose value is set. What comes after each neighbour is laid by in `later`.
pub fn from(ground: Ground<'_>, later: &mut Later, trace: &mut Trace, x: usize)
    requires { Walkable (view ground.session.now) ground.links.now.first ground.links.now.next x }
    ensures { trace.new ≡ traces.pushed_all (write operation.sum (view ground.entry.session.now) x) trace.old }
{
    if is_silent(ground, x) {
        return;
    }
    later.lay(ground.session, x);
    let count = usize::from(ground.session.tree.count);
    spread(ground, later, trace, x, x, 0, count);
}

// Whether no neighbour of x holds a lease, so that x tells nobody.
fn is_silent(ground: Ground<'_>, x: usize) -> bool
    requires { At ground.links.now ground.session.now.tree x }
    ensures { result ≡ true → SilentUpTo ground.entry.session.now.tree.count ground.entry.session.now.tree.parents (lease_of ground.entry.session.now) x ground.entry.session.now.tree.count }
{
    for w in ground.neighbours(x) {
        if ground.lease(x, w) != 0 {
            return false;
        }
    }
    true
}

// u, told by a neighbour or by nobody, tells those of its other neighbours in turn that hold a lease.
#[cycle(spread_tell)]
fn spread(
    ground: Ground<'_>,
    later: &Later,
    trace: &mut Trace,
    u: usize,
    from: usize,
    told: i64,
    left: usize,
)
    requires { Spreading (view ground.session.now) ground.links.now.first ground.links.now.next later.now.up later.now.down u from told }
    ensures { Spread (view ground.entry.session.now) left u from told trace.old trace.new }
{
    let mut sum = ground.value(u) + told;
    if left == 0 {
        return;
    }
    for w in ground.neighbours(u) {
        sum = tell(ground, later, trace, u, from, told, left - 1, w, sum);
    }
}

// One neighbour w of u: left out if it told u, told if it holds a lease. `sum` is u's value, what u
// was told and what it knows of the neighbours before w; what it knows of those after w was laid by.
// Answers the sum with what u knows of w.
#[cycle(spread_tell)]
fn tell(
    ground: Ground<'_>,
    later: &Later,
    trace: &mut Trace,
    u: usize,
    from: usize,
    told: i64,
    left: usize,
    w: usize,
    sum: i64,
) -> i64
    requires { Telling (view ground.session.now) ground.links.now.first ground.links.now.next later.now.up later.now.down u from told w sum }
    ensures { Told (view ground.entry.session.now) left u from told w sum trace.old result trace.new }
{
    if w == from {
        return sum;
    }
    let kept = ground.cache(w, u);
    let before = sum + later::known(ground.lease(w, u), kept);
    let number = ground.lease(u, w);
    if number == 0 {
        return before;
    }
    let total = sum + later.after(u, w);
    trace.push(Message::Update(u as u8, w as u8, total));
    spread(ground, later, trace, w, u, total, left);
    if number == 1 {
        trace.push(Message::Release(w as u8, u as u8));
    }
    before
}
