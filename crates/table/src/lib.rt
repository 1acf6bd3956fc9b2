// The tree's table: its reader and its writer.
//
// A table is the node count in 9 bits, then for each node from 1 up its parent, in as many bits as
// the node's number less one is long in binary, then zero bits to the byte.
#![tactic(auto)]

mod reader; // from bytes to a tree, field by field
mod width; // how wide the parent fields are
mod writer; // from a tree to bytes

ghost use Rattle.std.specs.Prelude.{◌≡◌, length};
ghost use Rattle.table.specs.Told.{told_reading, told_written};
ghost use Rattle.table.specs.Reading.{reading_of};
ghost use Rattle.table.specs.Writing.{written_of, output_of};

use refusal::Refusal;
use tree::Tree;

// The tree of a table. Refusals: 1 the table ends before a field that is due, 2 the count is 0 or
// above 256, 3 a parent is not smaller than its child, 4 a filling bit is set or bytes are left over.
// The fields are judged in their order, the first fault decides, and 4 comes last.
#[tactic(auto, using(crate::proofs::Turns::count_cut, crate::proofs::Turns::count_wrong, crate::proofs::Turns::counted))]
pub fn read(bytes: &[u8]) -> Result<Tree, Refusal>
    ensures { told_reading result ≡ reading_of bytes.now }
{
    let count = fields::get(bytes, 0, 9)?;
    if !(1..=256).contains(&count) {
        return Err(Refusal::NodeCount);
    }
    reader::nodes(bytes, count as usize)
}

// Writes the table of a tree into the first bytes, answers how many, and leaves later ones as they are.
// Refusals: 6 the tree is out of rule, 9 the output is too short. Where writing is refused, nothing
// is changed.
pub fn write(tree: Tree, out: &mut [u8]) -> Result<usize, Refusal>
    ensures { (told_written result ≡ written_of tree (length out.old)) × (out.new ≡ output_of tree out.old) }
{
    if !tree.in_rule() {
        return Err(Refusal::Unsound);
    }
    let count = usize::from(tree.count);
    let bytes = writer::table_size(count);
    if out.len() < bytes {
        return Err(Refusal::NoRoom);
    }
    out[..bytes].fill(0);
    fields::put(out, 0, 9, u64::from(tree.count));
    writer::parents(out, &tree);
    Ok(bytes)
}
