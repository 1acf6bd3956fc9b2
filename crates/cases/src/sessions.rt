// Sessions: loaded from a table, and the requests of a list served one by one.
use crate::lists::Requests;
use crate::show::{self, Bytes};
use crate::{change, runs};
use aggregate::Served;
use refusal::Refusal;
use requests::Request;
use session::{Pairs, Session};
use std::io;
use tree::Tree;

// The first bytes are the table, the rest is the list. Each request is logged from place on in zeros
// of so many bytes.
pub fn serve(rt: &impl Print, table: u64, place: u64, room: u64, bytes: &[u8]) -> io::Result<()> {
    print!(rt; "session")?;
    if let Some((table, list)) = bytes.split_at_checked(table as usize) {
        loaded(rt, table, place as usize, room as usize, list)?;
    }
    println!(rt)
}

fn loaded(rt: &impl Print, table: &[u8], place: usize, room: usize, list: &[u8]) -> io::Result<()> {
    let other = other();
    let loaded = other.load(table);
    print!(rt; "{}: {}", Bytes(table), show::number(&loaded))?;
    match loaded {
        Ok(session) => {
            print!(rt; " {}", show::number(&requests::judge(list)))?;
            held(rt, &run(rt, session, place, room, list)?)
        }
        Err(_) => held(rt, &other),
    }
}

// A table is loaded and a list served, then one entry of the session is changed, and what each call
// answers to it is printed.
pub fn unsound(
    rt: &impl Print,
    table: u64,
    entry: u64,
    value: u64,
    bytes: &[u8],
) -> io::Result<()> {
    print!(rt; "changed {entry} {value}:")?;
    if let Some((table, list)) = bytes.split_at_checked(table as usize) {
        let other = other();
        let session = other.load(table).unwrap_or(other);
        let mut session = run(rt, session, 0, 2423, list)?;
        change::entry(&mut session, entry, value);
        calls(rt, session)?;
    }
    println!(rt)
}

// A session that is to be replaced. It is written out: where `Session::fresh` refuses, a session would be
// needed again.
pub fn other() -> Session {
    let none = Pairs {
        lease: [0; 256],
        cache: [0; 256],
        messages: [0; 256],
    };
    let mut values = [0; 256];
    values[1] = 7;
    Session {
        tree: Tree {
            count: 2,
            parents: [0; 256],
        },
        values,
        up: none,
        down: none,
        accepted: 9,
    }
}

// The requests of an accepted list, up to the first that is refused.
fn run(
    rt: &impl Print,
    mut session: Session,
    place: usize,
    room: usize,
    list: &[u8],
) -> io::Result<Session> {
    let Ok(judged) = requests::judge(list) else {
        return Ok(session);
    };
    for request in Requests::of(list, judged) {
        let mut log = [0u8; 2500];
        let room = log.len().min(room);
        let served = aggregate::request(session, request, &mut log[..room], place);
        outcome(rt, &served)?;
        print!(rt; " log{}", Bytes(&log))?;
        let Ok(Served { session: after, .. }) = served else {
            break;
        };
        session = after;
    }
    Ok(session)
}

// What a request told: the number of a refusal, the answer, the messages and the next log place.
fn outcome(rt: &impl Print, served: &Result<Served, Refusal>) -> io::Result<()> {
    match served {
        Ok(Served { outcome, .. }) => print!(rt;
            "\n  0 {} {} {}",
            outcome.answer, outcome.messages, outcome.next
        ),
        Err(refusal) => print!(rt; "\n  {} 0 0 0", u8::from(*refusal)),
    }
}

// What a session holds: its count of requests, and sums over its arrays.
pub fn held(rt: &impl Print, session: &Session) -> io::Result<()> {
    print!(rt;
        "\n  holds {} {} {} {}",
        session.accepted,
        values(&session.values),
        pairs(&session.up),
        pairs(&session.down)
    )
}

fn values(values: &[i32; 256]) -> u32 {
    values
        .iter()
        .fold(0, |sum, value| show::mixed(sum, value.cast_unsigned()))
}

fn pairs(pairs: &Pairs) -> u32 {
    let mut sum = 0;
    for ((lease, cache), messages) in pairs.lease.iter().zip(&pairs.cache).zip(&pairs.messages) {
        sum = show::mixed(sum, u32::from(*lease));
        sum = show::mixed(sum, show::low(cache.cast_unsigned()));
        sum = show::mixed(sum, *messages);
    }
    sum
}

// What each call answers to one session.
fn calls(rt: &impl Print, session: Session) -> io::Result<()> {
    let mut table = [0u8; 226];
    let mut log = [0u8; 2423];
    let sound = if session.is_sound() { "yes" } else { "no" };
    let written = session.write_table(&mut table);
    print!(rt;
        " {sound} {} {}{}",
        show::number(&written),
        written.unwrap_or(0),
        Bytes(&table)
    )?;
    outcome(rt, &aggregate::combine(session, 0, &mut log, 0))?;
    outcome(rt, &aggregate::write(session, 0, -1, &mut log, 0))?;
    let ran = aggregate::run(session, &[0, 0], &mut [], &mut log, 0);
    runs::totals(rt, &ran)?;
    print!(rt; "{}", Bytes(&log))
}
