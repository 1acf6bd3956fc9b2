// A message as a record of bits.
ghost use Rattle.std.specs.Prelude.{◌≡◌, ℕ, ◌⊎◌, ◌+◌, ◌-◌, ◌*◌, ◌^◌, ◌<◌, ◌≤◌, length, Ok};
ghost use Rattle.fields.specs.Usable.{usable_bits};
ghost use Rattle.messages.specs.Records.{bits_of, head_of};
ghost use Rattle.messages.specs.Reading.{decoded};
ghost use Rattle.messages.specs.inner.Kinds as kinds;
ghost use Rattle.messages.specs.inner.Found.{numbered, behind, record_at};

use crate::Message;
use crate::kind::Kind;
use refusal::Refusal;

// How many bits the record of a message has.
pub fn width(message: Message) -> usize
    ensures { result ≡ bits_of message }
{
    Kind::from(message).width()
}

// The record of a message as one number. Refusal: 11 its value does not fit 40 bits.
#[tactic(auto, unfolding(crate::specs::inner::Found::numbered, crate::specs::inner::Found::behind, crate::specs::Records::kind_of, crate::specs::Records::width_of, crate::specs::Records::record_of), using(crate::proofs::Parts::handed_on, crate::proofs::Parts::behind_small))]
pub fn number(message: Message) -> Result<u64, Refusal>
    ensures { (result ≡ numbered message) × ((n : ℕ) → result ≡ Ok n → n < 2 ^ bits_of message) }
{
    let kind = Kind::from(message);
    match message {
        Message::Probe(from, to) | Message::Release(from, to) => Ok(head(kind, from, to)),
        // two arms, since a pattern with | that binds an i64 is beyond this Rattle's check
        Message::Response(from, to, value) => with_value(head(kind, from, to), value),
        Message::Update(from, to, value) => with_value(head(kind, from, to), value),
    }
}

// Kind, sender and receiver, with which every record begins, as one number.
fn head(kind: Kind, from: u8, to: u8) -> u64
    ensures { (result ≡ head_of (kinds.number kind) from to) × (result < 262144) }
{
    (u64::from(kind) * 256 + u64::from(from)) * 256 + u64::from(to)
}

// A head of kind, sender and receiver with the value behind it, as one number.
#[tactic(auto, unfolding(crate::specs::inner::Found::behind), using(crate::proofs::Parts::has_number, crate::proofs::Parts::has_none, crate::proofs::Widths::value_lt))]
fn with_value(head: u64, value: i64) -> Result<u64, Refusal>
    requires { head < 262144 }
    ensures { result ≡ behind head value }
{
    Ok((head << 40) + twos::encode(value, 40)?)
}

// A record of so many bits, with zero bits behind it up to 58.
pub fn padded(width: usize, number: u64) -> u64
    requires { ((width ≡ 18) ⊎ (width ≡ 58)) × (number < 2 ^ width) }
    ensures { result ≡ number * 2 ^ (58 - width) }
{
    number << (58 - width)
}

// The message of a record with zero bits behind it up to 58.
#[tactic(auto, unfolding(crate::specs::Reading::decoded), using(crate::proofs::Parts::value_is, crate::proofs::ByKind::made_at))]
pub fn message(number: u64) -> Message
    ensures { result ≡ decoded number }
{
    let from = ((number >> 48) % 256) as u8;
    let to = ((number >> 40) % 256) as u8;
    let value = twos::decode(number % (1 << 40), 40).unwrap();
    match Kind::from(number >> 56) {
        Kind::Probe => Message::Probe(from, to),
        Kind::Response => Message::Response(from, to, value),
        Kind::Update => Message::Update(from, to, value),
        Kind::Release => Message::Release(from, to),
    }
}

// The message whose record starts at place and ends before end, and the place after it. Refusal: 1 the
// record does not end before end.
#[tactic(auto, using(crate::proofs::Found::kind_cut))]
pub fn read(log: &[u8], place: usize, end: usize) -> Result<(Message, usize), Refusal>
    requires { end ≤ usable_bits (length log.now) }
    ensures { result ≡ record_at log.now place end }
{
    let width = Kind::from(fields::get(log, place, 2)?).width();
    if end < place + width {
        return Err(Refusal::Short);
    }
    let number = fields::get(log, place, width)?;
    Ok((message(padded(width, number)), place + width))
}
