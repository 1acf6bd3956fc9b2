// Outside vectors: a table and a list as the program `rww` takes them, with the log of each request.
use crate::lists::Requests;
use crate::sessions;
use crate::show::Digits;
use aggregate::Outcome;
use requests::Request;
use session::Session;
use std::io;

// The first bytes are the table, the rest is the list. Logs are printed where they are asked for.
pub fn serve(rt: &impl Print, table: u64, logs: u64, bytes: &[u8]) -> io::Result<()> {
    match bytes.split_at_checked(table as usize) {
        Some((table, list)) => loaded(rt, table, logs == 1, list),
        None => Ok(()),
    }
}

// Prints what `rww` prints, and the logs where the case says so by a number. The two programs share no
// crate: one reads files, one cases, and the lines between which the logs stand are few.
fn loaded(rt: &impl Print, table: &[u8], logs: bool, list: &[u8]) -> io::Result<()> {
    let session = match sessions::other().load(table) {
        Ok(session) => session,
        Err(refusal) => return println!(rt; "table {}", u8::from(refusal)),
    };
    match requests::judge(list) {
        Ok(judged) => run(rt, session, logs, Requests::of(list, judged)),
        Err(refusal) => println!(rt; "list {}", u8::from(refusal)),
    }
}

// The requests of an accepted list, up to the first that is refused, each from bit 0 of zero bytes on,
// and what they answer and log.
fn run(
    rt: &impl Print,
    mut session: Session,
    logs: bool,
    requests: Requests<'_>,
) -> io::Result<()> {
    let mut sum = 0u32;
    for (index, request) in requests.enumerate() {
        let mut log = [0u8; 2423];
        let served = match aggregate::request(session, request, &mut log, 0) {
            Ok(served) => served,
            Err(refusal) => return println!(rt; "request {index} {}", u8::from(refusal)),
        };
        accepted(rt, request, served.outcome)?;
        if logs {
            logged(rt, index, served.outcome.next, &log)?;
        }
        session = served.session;
        sum = sum.saturating_add(served.outcome.messages);
    }
    println!(rt; "total {sum}")
}

// The line that `rww` prints: two formats there, two here, and no crate between them is plainer.
fn accepted(rt: &impl Print, request: Request, outcome: Outcome) -> io::Result<()> {
    let messages = outcome.messages;
    match request {
        Request::Combine(x) => println!(rt; "C {x} {} {messages}", outcome.answer),
        Request::Write(x, value) => println!(rt; "W {x} {value} {messages}"),
    }
}

// Prints the index of a request, the bits that it logged, and the bytes that hold them.
fn logged(rt: &impl Print, index: usize, bits: usize, log: &[u8]) -> io::Result<()> {
    match log.get(..bits.div_ceil(8)) {
        Some(bytes) => println!(rt; "log {index} {bits} {}", Digits(bytes)),
        None => println!(rt; "log {index} {bits}"),
    }
}
