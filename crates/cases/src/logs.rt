// Logs: messages written, and read.
use crate::show::Bytes;
use messages::{LogReader, Message};
use refusal::Refusal;
use std::{fmt, io};

// A message is written to the log, and read back. Its kind, sender and receiver are b in 2, 8 and 8
// bits, its value is c in two's complement.
pub fn write(rt: &impl Print, place: u64, b: u64, c: u64, log: &mut [u8]) -> io::Result<()> {
    let message = message(
        b / 65536 % 4,
        (b / 256 % 256) as u8,
        (b % 256) as u8,
        c.cast_signed(),
    );
    print!(rt; "write {} at {place}:", Words(message))?;
    let written = messages::write(log, place as usize, message);
    match written {
        Ok(next) => print!(rt; " {next}")?,
        Err(refusal) => print!(rt; " refused {}", u8::from(refusal))?,
    }
    let read = messages::read(log, place as usize, written.unwrap_or(0));
    println!(rt; "{}{}", Bytes(log), Found(read))
}

// The kind is a number here alone: a case gives it as 2 bits.
fn message(kind: u64, from: u8, to: u8, value: i64) -> Message {
    match kind {
        0 => Message::Probe(from, to),
        1 => Message::Response(from, to, value),
        2 => Message::Update(from, to, value),
        _ => Message::Release(from, to),
    }
}

// What stands in the log from a place on, up to an end or to what is refused, and how many messages
// that are.
pub fn read(rt: &impl Print, place: u64, end: u64, log: &[u8]) -> io::Result<()> {
    print!(rt; "read {place} {end} of{}:", Bytes(log))?;
    all(rt, place as usize, end as usize, log)?;
    println!(rt; " {}", count(place as usize, end as usize, log))
}

fn all(rt: &impl Print, place: usize, end: usize, log: &[u8]) -> io::Result<()> {
    let mut reader = LogReader::new(log, place);
    for _ in 0..1000 {
        let read = reader.read(end);
        print!(rt; "{}", Found(read))?;
        if !is_message(read) {
            break;
        }
    }
    Ok(())
}

// How many messages stand in the log from a place on: a usable log has room for no more than 29,127.
fn count(place: usize, end: usize, log: &[u8]) -> usize {
    let mut reader = LogReader::new(log, place);
    for n in 0..29127 {
        if !is_message(reader.read(end)) {
            return n;
        }
    }
    29127
}

fn is_message(read: Result<Option<(Message, usize)>, Refusal>) -> bool {
    matches!(read, Ok(Some(_)))
}

// What stands at a place of a log.
#[derive(Clone, Copy)]
struct Found(Result<Option<(Message, usize)>, Refusal>);

impl fmt::Display for Found {
    fn fmt<W: fmt::Write>(&self, f: &mut fmt::Formatter<W>) -> fmt::Result {
        match self.0 {
            Ok(Some((message, next))) => write!(f, " {} to {next},", Words(message)),
            Ok(None) => f.write_str(" end"),
            Err(refusal) => write!(f, " refused {}", u8::from(refusal)),
        }
    }
}

// A message in words.
#[derive(Clone, Copy)]
struct Words(Message);

impl fmt::Display for Words {
    fn fmt<W: fmt::Write>(&self, f: &mut fmt::Formatter<W>) -> fmt::Result {
        match self.0 {
            Message::Probe(from, to) => write!(f, "probe {from} {to}"),
            Message::Response(from, to, value) => write!(f, "response {from} {to} {value}"),
            Message::Update(from, to, value) => write!(f, "update {from} {to} {value}"),
            Message::Release(from, to) => write!(f, "release {from} {to}"),
        }
    }
}
