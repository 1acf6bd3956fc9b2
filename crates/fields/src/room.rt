// Which fields lie in a slice, and which numbers in a field.
ghost use Rattle.std.specs.Prelude.{◌≡◌, ◌<◌, ◌≤◌, ◌^◌, ltb};
ghost use Rattle.fields.specs.Usable.{usable_bits};
ghost use Rattle.fields.specs.Usable;

// Only so many bytes of a slice are ever used.
const USABLE: usize = 65536;

// How many bits of a slice of len bytes are ever used.
pub fn usable_bits(len: usize) -> usize
    ensures { result ≡ usable_bits len }
{
    8 * len.min(USABLE)
}

// Whether the width bits from place on are at most 64 and lie in the usable ones of len bytes.
#[tactic(auto, unfolding(crate::specs::Usable::lies))]
pub fn lies(len: usize, place: usize, width: usize) -> bool
    ensures { result ≡ Usable.lies len place width }
{
    let end = usable_bits(len);
    width <= 64 && place <= end && width <= end - place
}

// Whether the width bits from place on are at most 64, lie in the usable ones of len bytes, and have
// room for value.
#[tactic(auto, unfolding(crate::specs::Usable::takes), using(crate::proofs::Rooms::lying))]
pub fn takes(len: usize, place: usize, width: usize, value: u64) -> bool
    ensures { result ≡ Usable.takes len place width value }
{
    lies(len, place, width) && holds(width, value)
}

// Whether a field of width bits has room for value.
fn holds(width: usize, value: u64) -> bool
    requires { width ≤ 64 }
    ensures { result ≡ ltb value (2 ^ width) }
{
    width == 64 || value < power(width)
}

// 2 to the n.
fn power(n: usize) -> u64
    requires { n < 64 }
    ensures { result ≡ 2 ^ n }
{
    1u64 << n
}
