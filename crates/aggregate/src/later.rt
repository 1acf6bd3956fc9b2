// What comes after each neighbour of a node in turn, in one pass from the last node down.
ghost use Rattle.std.specs.Prelude.{◌≡◌, ◌<◌, pos};
ghost use Rattle.session.specs.Holding.{pair_at};
ghost use Rattle.mechanism.specs.Views.{view};
ghost use Rattle.walk.specs.inner.Laters.{Passing, Passed};

use crate::ground;
use session::Session;

// What each node knows of its neighbours after a neighbour, at the place of the child: from child to
// parent in `up`, and from parent to child in `down`. Arrays of numbers, since there is no heap and
// memory is fixed.
#[derive(Clone, Copy)]
pub struct Later {
    pub up: [i64; 256],
    pub down: [i64; 256],
}

impl Later {
    // Nothing laid by.
    pub fn none() -> Later {
        Later {
            up: [0; 256],
            down: [0; 256],
        }
    }

    // Lays by for each pair (u,w) what u knows of its neighbours after w, the one towards x left out. A
    // node has all that its children give when its turn comes, since they are larger. `at` is the next
    // node on the way from x to the root. What was laid by before is gone: of `up` as many places are
    // cleared as there are nodes, of `down` each is written before it is read.
    pub fn lay(&mut self, session: &Session, x: usize)
        requires { Passing (view session.now) x }
        ensures { Passed (view session.now) x self.new.up self.new.down }
    {
        let count = usize::from(session.tree.count);
        self.up[..count].fill(0);
        let mut at = x;
        for i in (1..count).rev() {
            let p = usize::from(session.tree.parents[i]);
            self.down[i] = self.up[p];
            if i == at {
                at = p;
            } else {
                self.up[p] += known(session.up.lease[i], session.up.cache[i]);
            }
        }
    }

    // What u knows of its neighbours after v.
    pub fn after(&self, u: usize, v: usize) -> i64
        requires { (u < 256) × (v < 256) }
        ensures { result ≡ pair_at (pos 0) self.now.up self.now.down u v }
    {
        ground::entry(&self.up, &self.down, u, v)
    }
}

// What is known by a cache: the cache where there is a lease, and nothing where there is none.
#[tactic(auto, unfolding(walk::specs::inner::Laters::known_by))]
pub fn known(lease: u8, cache: i64) -> i64
    ensures { result ≡ Rattle.walk.specs.inner.Laters.known_by lease cache }
{
    if lease == 0 { 0 } else { cache }
}
