// The bits of a field, one by one.
ghost use Rattle.std.specs.Prelude.{◌≡◌, ◌+◌, ◌≤◌, length};
ghost use Rattle.fields.specs.Fields.{field, put_field};
ghost use Rattle.fields.specs.Usable.{usable_bits};

use crate::bit;

// The number in the width bits from place on, read from the first bit to the last.
pub fn read(bytes: &[u8], place: usize, width: usize) -> u64
    requires { (width ≤ 64) × (place + width ≤ usable_bits (length bytes.now)) }
    ensures { result ≡ field bytes.now place width }
{
    let mut number: u64 = 0;
    for i in 0..width {
        number = number * 2 + bit::read(bytes, place + i);
    }
    number
}

// Writes the low bits of value into the width bits from place on, from the last to the first.
pub fn write(bytes: &mut [u8], place: usize, width: usize, value: u64)
    requires { place + width ≤ usable_bits (length bytes.old) }
    ensures { bytes.new ≡ put_field bytes.old place width value }
{
    let mut rest = value;
    for i in (0..width).rev() {
        bit::write(bytes, place + i, (rest % 2) as u8);
        rest /= 2;
    }
}
