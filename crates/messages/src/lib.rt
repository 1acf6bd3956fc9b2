// Messages between neighbours, and the log in which each is a record of bits.
//
// Every public function is total: it takes whatever it is handed and has one outcome. Only the first
// 65,536 bytes of a log, or all of a shorter one, are ever used: the usable log. A log and a place in it are
// two arguments, as document 01 has the plain form; `LogReader` holds both.
#![tactic(auto)]

mod kind; // a message's kind
mod reader; // the log's reader that carries the log and its place along
mod record; // a message as a record of bits

ghost use Rattle.std.specs.Prelude.{◌≡◌, length};
ghost use Rattle.messages.specs.Records.{bits_of, coded_of};
ghost use Rattle.messages.specs.Writing.{recorded_of, log_after};
ghost use Rattle.messages.specs.Reading.{decoded, entry_at};

pub use reader::LogReader;
use refusal::Refusal;

// What one node sends a neighbour: the sender, the receiver, and for a response and an update the
// value.
#[derive(Clone, Copy, Debug, PartialEq, Eq)]
pub enum Message {
    Probe(u8, u8),
    Response(u8, u8, i64),
    Update(u8, u8, i64),
    Release(u8, u8),
}

// How many bits a message's record has.
pub fn bits(message: Message) -> usize
    ensures { result ≡ bits_of message }
{
    record::width(message)
}

// A message as a number of 58 bits: its record, with zero bits behind it. Refusal: 11 the value does
// not fit the record's 40 bits.
#[tactic(auto, unfolding(crate::specs::Records::coded, crate::specs::Records::coded_of), using(crate::proofs::Coding::short_or_long, crate::proofs::Parts::record_made, crate::proofs::Parts::not_made))]
pub fn code(message: Message) -> Result<u64, Refusal>
    ensures { result ≡ coded_of message }
{
    Ok(record::padded(record::width(message), record::number(message)?))
}

// The message of a number of 58 bits.
pub fn decode(number: u64) -> Message
    ensures { result ≡ decoded number }
{
    record::message(number)
}

// Writes the message's record from place on, and answers the place after it. Refusals: 9 the usable
// log ends before the record does, 11 the value does not fit the record's 40 bits. Where the message is
// refused, nothing is changed.
#[tactic(auto, unfolding(crate::specs::Writing::recorded_of), using(crate::proofs::Parts::record_made, crate::proofs::Parts::not_made, crate::proofs::Answers::log_put, crate::proofs::Answers::log_full, crate::proofs::Answers::log_misfit))]
pub fn write(log: &mut [u8], place: usize, message: Message) -> Result<usize, Refusal>
    ensures { (result ≡ recorded_of (length log.old) place message) × (log.new ≡ log_after log.old place message) }
{
    let width = record::width(message);
    if fields::usable_bits(log.len()) < place.saturating_add(width) {
        return Err(Refusal::NoRoom);
    }
    let number = record::number(message)?;
    fields::put(log, place, width, number);
    Ok(place + width)
}

// The message that stands in the log at place, before end, and the place after it; none where the place
// is the end. Refusal: 1 fewer bits are left before the end than the record has, the place is past the
// end, or the end is past the usable log.
#[tactic(auto, using(crate::proofs::Entries::entry_past, crate::proofs::Entries::entry_end, crate::proofs::Found::entry_cut, crate::proofs::Found::entry_there))]
pub fn read(log: &[u8], place: usize, end: usize) -> Result<Option<(Message, usize)>, Refusal>
    ensures { result ≡ entry_at log.now place end }
{
    if fields::usable_bits(log.len()) < end {
        return Err(Refusal::Short);
    }
    if place == end {
        return Ok(None);
    }
    Ok(Some(record::read(log, place, end)?))
}
