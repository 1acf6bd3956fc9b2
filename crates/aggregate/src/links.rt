// Each node's neighbours, one after the other, without a look at any other node.
ghost use Rattle.std.specs.Prelude.{◌≡◌, ◌+◌, ◌<◌, ◌≤◌};
ghost use Rattle.tree.specs.Parents.{Grown};
ghost use Rattle.tree.specs.Turns as turns;
ghost use Rattle.walk.specs.inner.Links.{Found, Going, Linked, neighbour_at};
ghost use Rattle.aggregate.specs.inner.Rounds.{At, Begun, Goes, left_of, MayGo};

use tree::Tree;

// Each node's first child, and the next child of its parent; the tree's count for none, which is where
// `turn` ends. Arrays of numbers, since there is no heap and memory is fixed. They are lent beside the session and not held
// with it: a request writes the session while the links stay. `Ground` has both, for a walk.
#[derive(Clone, Copy)]
pub struct Links {
    pub first: [u16; 256],
    pub next: [u16; 256],
}

impl Links {
    // The links of a tree.
    pub fn of(tree: &Tree) -> Links
        requires { (0 < tree.now.count) × ((tree.now.count ≤ 256) × Grown tree.now.parents tree.now.count) }
        ensures { Linked tree.now.count tree.now.parents result.first result.next }
    {
        let mut first = [tree.count; 256];
        let mut next = [tree.count; 256];
        for i in (1..tree.count).rev() {
            let w = usize::from(i);
            let p = usize::from(tree.parents[w]);
            next[w] = first[p];
            first[p] = i;
        }
        Links { first, next }
    }

    // The neighbours of u, in turn: its parent, then its children.
    pub fn neighbours<'a>(&'a self, tree: &'a Tree, u: usize) -> Neighbours<'a>
        requires { At self.now tree.now u }
        ensures { Begun self.now tree.now u result }
    {
        Neighbours {
            links: self,
            tree,
            node: u,
            place: self.first(tree, u),
        }
    }

    // The place of u's first neighbour among its candidates.
    fn first(&self, tree: &Tree, u: usize) -> usize
        requires { At self.now tree.now u }
        ensures { Found tree.now.count (neighbour_at tree.now.count tree.now.parents u) 0 result }
    {
        if u == 0 {
            return usize::from(self.first[0]);
        }
        usize::from(tree.parents[u])
    }

    // The place of u's next neighbour, after the one at place k.
    fn next(&self, tree: &Tree, u: usize, k: usize) -> usize
        requires { (k < tree.now.count) × Going tree.now.count tree.now.parents self.now.first self.now.next u k }
        ensures { Found tree.now.count (neighbour_at tree.now.count tree.now.parents u) (k + 1) result }
    {
        if k < u {
            return usize::from(self.first[u]);
        }
        usize::from(self.next[k])
    }
}

// The neighbours of a node, from the one at a place among its candidates on.
#[derive(Clone, Copy)]
pub struct Neighbours<'a> {
    links: &'a Links,
    tree: &'a Tree,
    node: usize,
    place: usize,
}

impl Iterator for Neighbours<'_> {
    type Item = usize;

    ghost can_next = { MayGo };

    ghost next_gives = { Goes };

    ghost remaining = { left_of };

    fn next(&mut self) -> Option<usize> {
        let count = usize::from(self.tree.count);
        let place = self.place;
        if count <= place {
            return None;
        }
        self.place = self.links.next(self.tree, self.node, place);
        Some(turn(count, self.node, place))
    }
}

// The candidate at place k.
#[tactic(auto, unfolding(tree::specs::Turns::turn))]
fn turn(count: usize, u: usize, k: usize) -> usize
    ensures { result ≡ turns.turn count u k }
{
    k
}
