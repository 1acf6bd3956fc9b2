// From a tree to bytes.
ghost use Rattle.std.specs.Prelude.{◌≡◌, ◌≤◌, ◌-◌, ◌*◌, length};
ghost use Rattle.packed.specs.Parts.{put_all};
ghost use Rattle.tree.specs.Parents.{Grown};
ghost use Rattle.table.specs.Layout.{parent_place, table_size};
ghost use Rattle.table.specs.Writing.{node_parts};

use crate::width;
use tree::Tree;

// How many bytes the table of so many nodes takes.
pub fn table_size(count: usize) -> usize
    requires { (1 ≤ count) × (count ≤ 256) }
    ensures { result ≡ table_size count }
{
    let mut place: usize = 9;
    for child in 1..count {
        place += width::of_parent(child);
    }
    place.div_ceil(8)
}

// Writes the parents of a tree's nodes from 1 on, each in its place.
#[tactic(auto, using(crate::proofs::Stores::all_stored, crate::proofs::Stores::store_near))]
pub fn parents(out: &mut [u8], tree: &Tree)
    requires { (1 ≤ tree.now.count) × ((tree.now.count ≤ 256) × (Grown tree.now.parents tree.now.count × (parent_place (tree.now.count - 1) ≤ 8 * length out.old))) }
    ensures { out.new ≡ put_all out.old 9 (node_parts tree.now.parents 0 (tree.now.count - 1)) }
{
    let mut place = 9;
    for child in 1..usize::from(tree.count) {
        let width = width::of_parent(child);
        fields::put(out, place, width, u64::from(tree.parents[child]));
        place += width;
    }
}
