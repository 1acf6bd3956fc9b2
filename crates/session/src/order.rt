// The inequality between neighbouring pairs, in one pass up the nodes.
ghost use Rattle.std.specs.Prelude.{◌≡◌, ◌≤◌, length};
ghost use Rattle.session.specs.inner.Passes as pass;

use tree::Tree;

// For each node the largest number of a pair out of it and the smallest of a pair into it, of the
// neighbours passed so far, are kept. No pair leads into the root from a parent: there the start is a
// number that no lease has. That there are 256 parents is known here by their type, and told to the
// caller, whose proof needs it.
pub fn ordered(tree: &Tree, up: &[u8; 256], down: &[u8; 256]) -> bool
    requires { (1 ≤ tree.now.count) × (tree.now.count ≤ 256) }
    ensures is { result ≡ pass.ordered tree.now.count tree.now.parents up.now down.now }
    ensures long { length tree.now.parents ≡ 256 }
{
    let mut high = *up;
    let mut low = *down;
    low[0] = 255;
    for child in 1..usize::from(tree.count) {
        let parent = usize::from(tree.parents[child]);
        if up[child] < high[parent] {
            return false;
        }
        if low[parent] < down[child] {
            return false;
        }
        high[parent] = high[parent].max(down[child]);
        low[parent] = low[parent].min(up[child]);
    }
    true
}
