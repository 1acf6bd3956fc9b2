// A session handed in by its parts.
ghost use Rattle.std.specs.Prelude.{◌≡◌};
ghost use Rattle.session.specs.Parts.{session_by};
ghost use Rattle.session.specs.Soundness.{sound};

use crate::{Session, entry, order, pass};
use tree::Tree;

// Whether the session that holds these parts is sound, for whoever has them at hand and would have to
// copy them to ask the session itself. `Session::is_sound` asks it of its own.
#[tactic(auto, using(crate::proofs::InPasses::node_count))]
pub fn parts_are_sound<'a>(
    count: u16,
    parents: &'a [u8; 256],
    values: &'a [i32; 256],
    up_lease: &'a [u8; 256],
    up_cache: &'a [i64; 256],
    up_messages: &'a [u32; 256],
    down_lease: &'a [u8; 256],
    down_cache: &'a [i64; 256],
    down_messages: &'a [u32; 256],
    accepted: u32,
) -> bool
    ensures { result ≡ sound 2 (session_by count parents.now values.now up_lease.now up_cache.now up_messages.now down_lease.now down_cache.now down_messages.now accepted) }
{
    let tree = Tree {
        count,
        parents: *parents,
    };
    let sizes = tree.sizes();
    // A tree out of rule has zeros for sizes; in any other the root has itself below it.
    if sizes[0] == 0 {
        return false;
    }
    if Session::LIMIT < accepted {
        return false;
    }
    let twice = 2 * accepted;
    entry::pairs(count, twice, false, &sizes, up_lease, up_cache, up_messages)
        & entry::pairs(
            count,
            twice,
            true,
            &sizes,
            down_lease,
            down_cache,
            down_messages,
        )
        & pass::none(&values[usize::from(count)..])
        & order::ordered(&tree, up_lease, down_lease)
}
