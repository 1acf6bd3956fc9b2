// Neighbours, and the way to the root.
ghost use Rattle.std.specs.Prelude.{◌≡◌};
ghost use Rattle.tree.specs.Parents.{parent};
ghost use Rattle.tree.specs.Sides.{below, nodes, is_below, adjacent, neighbours};

use crate::Tree;

impl Tree {
    // Whether u and w are neighbours.
    #[tactic(auto, unfolding(crate::specs::Sides::neighbours))]
    pub fn neighbours(&self, u: usize, w: usize) -> bool
        ensures { result ≡ neighbours self.now.parents self.now.count u w }
    {
        self.has(u, w) && self.adjacent(u, w)
    }

    // Whether node j is node i or below it.
    #[tactic(auto, unfolding(crate::specs::Sides::is_below))]
    pub fn is_below(&self, i: usize, j: usize) -> bool
        ensures { result ≡ is_below self.now.parents self.now.count i j }
    {
        self.has(i, j) && self.climbs(i, j)
    }

    // Whether u and w are both nodes.
    #[tactic(auto, unfolding(crate::specs::Sides::nodes))]
    fn has(&self, u: usize, w: usize) -> bool
        ensures { result ≡ nodes self.now.count u w }
    {
        let count = usize::from(self.count);
        u < count && w < count
    }

    // Whether of u and w the smaller is the parent of the larger.
    fn adjacent(&self, u: usize, w: usize) -> bool
        ensures { result ≡ adjacent self.now.parents u w }
    {
        if u < w {
            self.parent(w) == u
        } else {
            w < u && self.parent(u) == w
        }
    }

    // Climbs from j until it meets i or the root, or has taken as many steps as j is large.
    #[tactic(auto, using(crate::proofs::Below::climb_turns), unfolding(crate::specs::Sides::below))]
    fn climbs(&self, i: usize, j: usize) -> bool
        ensures { result ≡ below self.now.parents i j }
    {
        let mut at = j;
        for _ in 0..j {
            if at == i {
                return true;
            }
            if at == 0 {
                return false;
            }
            at = self.parent(at);
        }
        at == i
    }

    // The parent of node i, 0 where there is no entry.
    fn parent(&self, i: usize) -> usize
        ensures { result ≡ parent self.now.parents i }
    {
        self.parents.get(i).map_or(0, |p| usize::from(*p))
    }
}
