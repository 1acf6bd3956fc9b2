// The sizes of all sides, in one pass from the last node down.
ghost use Rattle.std.specs.Prelude.{◌≡◌, ◌≤◌};
ghost use Rattle.tree.specs.Parents.{InRule};
ghost use Rattle.tree.specs.Sizes.{size_below, ones, listed, sizes};

use crate::Tree;

impl Tree {
    // How many nodes are at or below each node: the size of its side of the edge to its parent. The
    // other side has the rest. 0 where there is no such node, and where the tree is out of rule.
    #[tactic(auto, using(crate::proofs::InRule::in_rule_exactly), unfolding(crate::specs::Sizes::sizes))]
    pub fn sizes(&self) -> [u16; 256]
        ensures { result ≡ sizes self.now.parents self.now.count }
    {
        if self.in_rule() {
            self.summed()
        } else {
            [0; 256]
        }
    }

    // The sizes below all nodes. A node has all that is below it when its turn comes, since its
    // children are larger, and is then added to its parent.
    #[tactic(auto, using(crate::proofs::Downward::pass_laws))]
    fn summed(&self) -> [u16; 256]
        requires { InRule self.now.parents self.now.count }
        ensures { result ≡ listed (size_below self.now.parents self.now.count) 256 }
    {
        let count = usize::from(self.count);
        let mut size = alone(count);
        for child in (1..count).rev() {
            let parent = usize::from(self.parents[child]);
            size[parent] += size[child];
        }
        size
    }
}

// The sizes of nodes with none below them: 1 for each node, 0 where there is none.
fn alone(count: usize) -> [u16; 256]
    requires { count ≤ 256 }
    ensures { result ≡ listed (ones count) 256 }
{
    let mut size = [0; 256];
    size[..count].fill(1);
    size
}
