// One call, many times over, each time on the same session.
use aggregate::{Ran, Served};
use refusal::Refusal;
use session::Session;

// What is called, at the tree's last node.
#[derive(Clone, Copy)]
pub enum Call {
    // a combine on a fresh session
    Cold,
    // a combine that takes no messages
    Free,
    // a write that takes no messages
    Silent,
    // a combine at node 0, then a write
    Both,
    // a list of 64 free combines
    Combines,
    // a list of 64 silent writes
    Writes,
    // a combine on a session that has accepted a request
    Other,
}

// The call of a letter.
impl From<u8> for Call {
    fn from(letter: u8) -> Call {
        match letter {
            b'C' => Call::Cold,
            b'F' => Call::Free,
            b'S' => Call::Silent,
            b'W' => Call::Both,
            b'L' => Call::Combines,
            b'V' => Call::Writes,
            _ => Call::Other,
        }
    }
}

// A sum of what came of a call that was made so many times. Three functions match on the call; a table of
// closures for seven calls would be no shorter.
pub fn sum(call: Call, times: u32, fresh: Session, log: &mut [u8]) -> u32 {
    let x = usize::from(fresh.tree.count.saturating_sub(1));
    let session = before(call, fresh, x, log);
    match call {
        Call::Combines => {
            let mut list = [0u8; 74];
            fill(&mut list, 9, x as u64 % 256);
            lists(times, &session, &list, log)
        }
        Call::Writes => {
            let mut list = [0u8; 330];
            fill(&mut list, 41, (256 + x as u64 % 256) * 4294967296 + 7);
            lists(times, &session, &list, log)
        }
        _ => requests(call, times, &session, x, log),
    }
}

// The session to which each call is made.
fn before(call: Call, fresh: Session, x: usize, log: &mut [u8]) -> Session {
    match call {
        Call::Cold => fresh,
        Call::Free | Call::Combines => combined(&fresh, x, log),
        Call::Both => Session {
            accepted: 5,
            ..fresh
        },
        Call::Silent | Call::Writes | Call::Other => Session {
            accepted: 1,
            ..fresh
        },
    }
}

// The session after a combine, or as it was where that is refused.
fn combined(session: &Session, x: usize, log: &mut [u8]) -> Session {
    match aggregate::combine(*session, x, log, 0) {
        Ok(served) => served.session,
        Err(_) => *session,
    }
}

// Requests and lists have a loop each: one that takes the call as a closure was tried, and a free
// combine then took a tenth to a half longer.
fn requests(call: Call, times: u32, session: &Session, x: usize, log: &mut [u8]) -> u32 {
    let mut sum = 0;
    for _ in 0..times {
        sum = mixed(sum, request(call, session, x, log));
    }
    sum
}

fn lists(times: u32, session: &Session, list: &[u8], log: &mut [u8]) -> u32 {
    let mut sum = 0;
    for _ in 0..times {
        sum = mixed(sum, run(session, list, log));
    }
    sum
}

// What came of one request.
fn request(call: Call, session: &Session, x: usize, log: &mut [u8]) -> u32 {
    let served = match call {
        Call::Silent => aggregate::write(*session, x, 7, log, 0),
        Call::Both => aggregate::write(combined(session, 0, log), x, 7, log, 0),
        _ => aggregate::combine(*session, x, log, 0),
    };
    match served {
        Ok(Served { outcome, .. }) => {
            low(outcome.answer.cast_unsigned()).wrapping_add(outcome.messages)
        }
        Err(refusal) => number(refusal),
    }
}

// What came of a list.
fn run(session: &Session, list: &[u8], log: &mut [u8]) -> u32 {
    match aggregate::run(*session, list, &mut [0; 64], log, 0) {
        Ok(
            Ran {
                stopped,
                totals,
                ..
            },
        ) => {
            let done = low(totals.requests as u64).wrapping_add(totals.messages);
            stopped.map_or(done, |stop| done.wrapping_add(number(stop.refusal)))
        }
        Err(refusal) => number(refusal),
    }
}

// Makes a list of 64 requests of so many bits.
fn fill(list: &mut [u8], width: u8, request: u64) {
    let width = usize::from(width);
    fields::put(list, 0, 13, 64);
    for k in 0..64 {
        fields::put(list, 13 + k * width, width, request);
    }
}

fn number(refusal: Refusal) -> u32 {
    u32::from(u8::from(refusal))
}

// The last 32 bits of a number. `cases` has this and the next too, and no crate for two lines is
// plainer.
fn low(x: u64) -> u32 {
    (x % 4294967296) as u32
}

// A sum, modulo 2^32, that tells where each of its parts stood.
fn mixed(sum: u32, said: u32) -> u32 {
    sum.wrapping_mul(31).wrapping_add(said)
}
