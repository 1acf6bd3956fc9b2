// What the walks of a request read: a session, and the links of its tree.
ghost use Rattle.std.specs.Prelude.{◌≡◌, ◌<◌};
ghost use Rattle.session.specs.Holding.{pair_at, lease_of, cache_of, value_of};
ghost use Rattle.aggregate.specs.inner.Rounds.{At, Begun};

use crate::links::{Links, Neighbours};
use session::Session;

// A session and its links, both lent: a walk hands them on as they are. That the links are those of the
// session's tree is no invariant here: the laws of a walk are about a view, and have it as a premise. Nodes
// below 256 are asked for as such; a type for them would be made and taken apart at every call.
#[derive(Clone, Copy)]
pub struct Ground<'a> {
    pub session: &'a Session,
    pub links: &'a Links,
}

impl<'a> Ground<'a> {
    // The neighbours of u, in turn.
    pub fn neighbours(self, u: usize) -> Neighbours<'a>
        requires { At self.links.now self.session.now.tree u }
        ensures { Begun self.entry.links.now self.entry.session.now.tree u result }
    {
        self.links.neighbours(&self.session.tree, u)
    }

    // The lease number of the pair (u,v).
    pub fn lease(self, u: usize, v: usize) -> u8
        requires { (u < 256) × (v < 256) }
        ensures { result ≡ lease_of self.entry.session.now u v }
    {
        entry(&self.session.up.lease, &self.session.down.lease, u, v)
    }

    // The cache of the pair (u,v): what v knows of u's side.
    pub fn cache(self, u: usize, v: usize) -> i64
        requires { (u < 256) × (v < 256) }
        ensures { result ≡ cache_of self.entry.session.now u v }
    {
        entry(&self.session.up.cache, &self.session.down.cache, u, v)
    }

    // The value of node u.
    pub fn value(self, u: usize) -> i64
        requires { u < 256 }
        ensures { result ≡ value_of self.entry.session.now u }
    {
        i64::from(self.session.values[u])
    }
}

// What is held of the pair (u,v): it stands at the larger of the two, that from child to parent in `up`
// and that from parent to child in `down`.
#[tactic(auto, unfolding(session::specs::Holding::pair_at))]
pub fn entry<T: Copy>(up: &[T; 256], down: &[T; 256], u: usize, v: usize) -> T
    requires { (u < 256) × (v < 256) }
    ensures { (d : T) → result ≡ pair_at d up.now down.now u v }
{
    if v < u { up[u] } else { down[v] }
}
