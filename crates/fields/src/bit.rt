// One bit of a slice of bytes, most significant bit first.
ghost use Rattle.std.specs.Prelude.{◌≡◌, ◌*◌, ◌<◌, length};
ghost use Rattle.fields.specs.Bits.{bit, put_bit, patch};
ghost use Rattle.fields.specs.Bits;

#[tactic(auto, unfolding(crate::specs::Bits::bit, crate::specs::Bits::digit, crate::specs::Bits::weight))]
pub fn read(bytes: &[u8], k: usize) -> u64
    requires { k < 8 * length bytes.now }
    ensures { result ≡ bit bytes.now k }
{
    let x = bytes[k / 8];
    u64::from((x >> (7 - k % 8)) % 2)
}

#[tactic(auto, unfolding(crate::specs::Bits::put_bit))]
pub fn write(bytes: &mut [u8], k: usize, b: u8)
    requires { (b < 2) × (k < 8 * length bytes.old) }
    ensures { bytes.new ≡ put_bit bytes.old k b }
{
    let i = k / 8;
    bytes[i] = patched(bytes[i], k, b);
}

// x with its bit k made b.
fn patched(x: u8, k: usize, b: u8) -> u8
    requires { b < 2 }
    ensures { result ≡ patch x (Bits.weight k) b }
{
    let w = weight(k);
    x - x / w % 2 * w + b * w
}

// What bit k counts in its byte.
#[tactic(auto, unfolding(crate::specs::Bits::weight))]
fn weight(k: usize) -> u8
    ensures { result ≡ Bits.weight k }
{
    1u8 << (7 - k % 8)
}
