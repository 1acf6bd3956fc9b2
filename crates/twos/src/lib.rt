// Two's complement in fields of 1 to 64 bits.
//
// Every public function is total: it takes whatever it is handed and has one outcome.
#![tactic(auto)]

mod sign; // a number and its sign

ghost use Rattle.std.specs.Prelude.{◌≡◌};
ghost use Rattle.twos.specs.Twos.{encoded, decoded, decoded32};

use refusal::Refusal;

// The number that stands for value in a field of width bits, two's complement. Refusal: 11 the value has
// no place in the field, or the field is not 1 to 64 bits wide.
#[tactic(auto, unfolding(crate::specs::Twos::encoded), using(crate::proofs::Misfits::encodes_is))]
pub fn encode(value: i64, width: usize) -> Result<u64, Refusal>
    ensures { result ≡ encoded width value }
{
    if sign::encodes(width, value) {
        return Ok(sign::number(width, value));
    }
    Err(Refusal::Misfit)
}

// The number that stands for an i32 in a field of width bits, two's complement. Refusal: as of `encode`.
// It and `decode32` stay for their theorems, which docs/PROMISES.md names; one generic pair would take a
// trait with two functions and two laws for these two lines.
pub fn encode32(value: i32, width: usize) -> Result<u64, Refusal>
    ensures { result ≡ encoded width value }
{
    encode(i64::from(value), width)
}

// The value that number stands for in a field of width bits, two's complement. Refusal: 11 the field has
// no such number, or is not 1 to 64 bits wide.
#[tactic(auto, unfolding(crate::specs::Twos::decoded), using(crate::proofs::Misfits::decodes_is))]
pub fn decode(number: u64, width: usize) -> Result<i64, Refusal>
    ensures { result ≡ decoded width number }
{
    if sign::decodes(width, number) {
        return Ok(sign::value(width, number));
    }
    Err(Refusal::Misfit)
}

// The i32 that number stands for in a field of width bits, two's complement. Refusals: those of `decode`,
// and 11 where the value has no place in an i32.
#[tactic(auto, unfolding(crate::specs::Twos::decoded32))]
pub fn decode32(number: u64, width: usize) -> Result<i32, Refusal>
    ensures { result ≡ decoded32 width number }
{
    i32::try_from(decode(number, width)?).or(Err(Refusal::Misfit))
}
