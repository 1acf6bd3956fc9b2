// Lists run in one call.
use crate::sessions;
use crate::show::{self, Bytes};
use aggregate::Ran;
use refusal::Refusal;
use session::Session;
use std::io;

// The first bytes are the table, the rest is the list. It is logged from place on in a log of `sizes`
// modulo 2^32 bytes, and has the rest of `sizes` answer places.
pub fn run(rt: &impl Print, table: u64, place: u64, sizes: u64, bytes: &[u8]) -> io::Result<()> {
    print!(rt; "run")?;
    if let Some((table, list)) = bytes.split_at_checked(table as usize) {
        let other = sessions::other();
        let session = other.load(table).unwrap_or(other);
        lent(rt, session, place as usize, sizes, list)?;
    }
    println!(rt)
}

// What was lent has a mark in every place, so that what is changed can be seen.
fn lent(
    rt: &impl Print,
    session: Session,
    place: usize,
    sizes: u64,
    list: &[u8],
) -> io::Result<()> {
    let mut log = [170u8; 65600];
    let mut answers = [7i64; 4096];
    let room = log.len().min((sizes % 4294967296) as usize);
    let places = answers.len().min((sizes / 4294967296) as usize);
    let ran = aggregate::run(
        session,
        list,
        &mut answers[..places],
        &mut log[..room],
        place,
    );
    totals(rt, &ran)?;
    print!(rt; " answers {} log{}", summed(&answers), Bytes(&log))?;
    match ran {
        Ok(ran) => sessions::held(rt, &ran.session),
        Err(_) => sessions::held(rt, &session),
    }
}

// What a run told: the number of a refusal and the index of its request, and the totals.
pub fn totals(rt: &impl Print, ran: &Result<Ran, Refusal>) -> io::Result<()> {
    match ran {
        Ok(
            Ran {
                stopped,
                totals,
                ..
            },
        ) => {
            match stopped {
                Some(stop) => print!(rt; "\n  {} {}", u8::from(stop.refusal), stop.index)?,
                None => print!(rt; "\n  0 0")?,
            }
            print!(rt;
                " {} {} {} {}",
                totals.requests, totals.answers, totals.messages, totals.next
            )
        }
        Err(refusal) => print!(rt; "\n  {} 0 0 0 0 0", u8::from(*refusal)),
    }
}

fn summed(answers: &[i64]) -> u32 {
    answers.iter().fold(
        0,
        |sum, answer| show::mixed(sum, show::low(answer.cast_unsigned())),
    )
}
