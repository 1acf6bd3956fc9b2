// The entries of pairs: within their limits where they are used, zero where they are not.
ghost use Rattle.std.specs.Prelude.{◌≡◌, ◌≤◌};
ghost use Rattle.tree.specs.Ranges.{in_range};
ghost use Rattle.session.specs.inner.Passes as pass;

use crate::pass::{every, none};
use rule::Rule;

// Whether the entries of all pairs of one direction are within their limits: from child to parent, or
// from parent to child (down). A closure in place of `down` would need a clause that says what it answers.
pub fn pairs<'a>(
    count: u16,
    twice: u32,
    down: bool,
    sizes: &'a [u16; 256],
    lease: &'a [u8; 256],
    cache: &'a [i64; 256],
    messages: &'a [u32; 256],
) -> bool
    requires { (1 ≤ count) × (count ≤ 256) }
    ensures { result ≡ pass.pairs count twice down sizes.now lease.now cache.now messages.now }
{
    let n = usize::from(count);
    let leased = none(&lease[..1]) & every(1, n, |i| lease[i] <= Rule::BREAK) & none(&lease[n..]);
    let counted = none(&messages[..1])
        & every(1, n, |i| messages[i] <= twice)
        & none(&messages[n..]);
    let cached = none(&cache[..1])
        & every(
            1,
            n,
            |i| in_range(near_size(count, down, sizes[i]), cache[i]),
        )
        & none(&cache[n..]);
    leased & counted & cached
}

// Whether z is in the range of a sum over k nodes.
fn in_range(k: u16, z: i64) -> bool
    ensures { result ≡ in_range k z }
{
    let nodes = i64::from(k);
    (nodes * -2147483648 <= z) & (z <= nodes * 2147483647)
}

// How many nodes are on the near side of a pair, of so many below its child.
fn near_size(count: u16, down: bool, size: u16) -> u16
    ensures { result ≡ pass.near_size count down size }
{
    if down {
        count.saturating_sub(size)
    } else {
        size
    }
}
