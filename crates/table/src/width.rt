// How wide the parent fields are.
ghost use Rattle.std.specs.Prelude.{◌≡◌, ◌-◌};
ghost use Rattle.table.specs.Layout.{long};

// How wide the parent field of a node is: as the node's number less one is long in binary.
#[tactic(auto, unfolding(crate::specs::Layout::long))]
pub fn of_parent(child: usize) -> usize
    ensures { result ≡ long (child - 1) }
{
    64 - child.saturating_sub(1).leading_zeros() as usize
}
