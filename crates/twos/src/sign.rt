// A number and its sign: two's complement in a field of 1 to 64 bits. Three functions ask for such a width;
// a type that says so would be made and taken apart at each call, and is no plainer.
ghost use Rattle.std.specs.Prelude.{◌≡◌, ◌<◌, ◌≤◌, ◌-◌, ◌^◌, negsuc};
ghost use Rattle.std.specs.Int.Signed.{mag};
ghost use Rattle.twos.specs.Twos.{twos, signed};
ghost use Rattle.twos.specs.Twos;

// Whether a field of width bits has a number for value.
#[tactic(auto, unfolding(crate::specs::Twos::encodes), using(crate::proofs::Misfits::wide_is))]
pub fn encodes(width: usize, value: i64) -> bool
    ensures { result ≡ Twos.encodes width value }
{
    wide(width) && magnitude(value) < half_of(width)
}

// Whether number stands for a value in a field of width bits.
#[tactic(auto, unfolding(crate::specs::Twos::decodes), using(crate::proofs::Misfits::wide_is, crate::proofs::Signs::halved))]
pub fn decodes(width: usize, number: u64) -> bool
    ensures { result ≡ Twos.decodes width number }
{
    wide(width) && number / 2 < half_of(width)
}

// The number for a value that has one.
pub fn number(width: usize, value: i64) -> u64
    requires { (0 < width) × (width ≤ 64) × (mag value < 2 ^ (width - 1)) }
    ensures { result ≡ twos width value }
{
    let size = magnitude(value);
    if 0 <= value {
        return size;
    }
    let half = half_of(width);
    half - 1 - size + half
}

// The value that a number of the field stands for.
#[tactic(auto, using(crate::proofs::Signs::signed_high))]
pub fn value(width: usize, number: u64) -> i64
    requires { (0 < width) × (width ≤ 64) × (number < 2 ^ width) }
    ensures { result ≡ signed width number }
{
    let half = half_of(width);
    if number < half {
        return number as i64;
    }
    below_zero(half - 1 - (number - half))
}

// How many numbers of a field of width bits stand for themselves: half of all.
fn half_of(width: usize) -> u64
    requires { (0 < width) × (width ≤ 64) }
    ensures { result ≡ 2 ^ (width - 1) }
{
    1u64 << (width - 1)
}

// The magnitude of a value: n of the value n, and of -1 - n.
pub fn magnitude(value: i64) -> u64
    ensures { result ≡ mag value }
{
    if 0 <= value {
        return value as u64;
    }
    (-1 - value) as u64
}

// The value -1 - n.
fn below_zero(n: u64) -> i64
    requires { n < 2 ^ 63 }
    ensures { result ≡ negsuc n }
{
    -1 - (n as i64)
}

#[tactic(auto, unfolding(crate::specs::Twos::wide))]
fn wide(width: usize) -> bool
    ensures { result ≡ Twos.wide width }
{
    (1..=64).contains(&width)
}
