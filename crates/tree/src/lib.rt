// Trees by their parent numbers.
//
// Node 0 is the root, and the parent of every other node is smaller than the node. Every function
// takes any tree, also one that is out of rule, and has one outcome. The laws of the sides of a
// tree, and of what is folded and walked over it, are mathematics: they stand in specs/ and proofs/.
#![tactic(auto)]

mod edge; // neighbours, is_below
mod entry; // in_rule
mod pass; // sizes

// The nodes are 0 to count - 1. Entry 0 of parents, and those from count on, are not used and zero. Anything
// may stand in the fields, so there is no invariant: functions that need 1 to 256 nodes ask for them. Parents
// are an array of 256, as document 01 has what is held of nodes; there is no heap.
#[repr(C)]
#[derive(Clone, Copy, Debug, PartialEq, Eq)]
pub struct Tree {
    pub count: u16,
    pub parents: [u8; 256],
}
