// Bit fields of 0 to 64 bits, most significant bit first, at any bit place of a slice of bytes.
//
// Every public function is total: it takes whatever it is handed and has one outcome. Only the first
// 65,536 bytes of a slice, or all of a shorter one, are ever used.
#![tactic(auto)]

mod bit; // one bit of a slice
mod room; // which fields lie in a slice, which numbers in a field
mod span; // the bits of a field, one by one

ghost use Rattle.std.specs.Prelude.{◌≡◌, length};
ghost use Rattle.fields.specs.Usable.{takes, field_at, put_at};

use refusal::Refusal;
pub use room::usable_bits;

// The number in the width bits from place on. Refusal: 1 the usable bytes end before the field does, or
// it is wider than 64 bits.
#[tactic(auto, unfolding(crate::specs::Usable::field_at), using(crate::proofs::Rooms::lying))]
pub fn get(bytes: &[u8], place: usize, width: usize) -> Result<u64, Refusal>
    ensures { result ≡ field_at bytes.now place width }
{
    if room::lies(bytes.len(), place, width) {
        return Ok(span::read(bytes, place, width));
    }
    Err(Refusal::Short)
}

// Makes the width bits from place on hold value, and answers true. Where the usable bytes have no
// such bits, or the bits no room for the value, it answers false and changes nothing. It is a bool, since
// which refusal that is, its caller knows (docs/DECISIONS.md).
#[tactic(auto, unfolding(crate::specs::Usable::put_at), using(crate::proofs::Rooms::taking))]
pub fn put(bytes: &mut [u8], place: usize, width: usize, value: u64) -> bool
    ensures { (result ≡ takes (length bytes.old) place width value) × (bytes.new ≡ put_at bytes.old place width value) }
{
    if room::takes(bytes.len(), place, width, value) {
        span::write(bytes, place, width, value);
        return true;
    }
    false
}
