// The requests of a list, one by one.
use aggregate::Served;
use refusal::Refusal;
use requests::Request;
use session::Session;
use std::io;

// Judges a list, then serves its requests up to the first that is refused, and prints what comes of
// each.
pub fn list(rt: &impl Print, mut session: Session, list: &[u8]) -> io::Result<()> {
    let judged = match requests::judge(list) {
        Ok(judged) => judged,
        Err(refusal) => return println!(rt; "list {}", u8::from(refusal)),
    };
    let mut place = judged.first;
    let mut sum: u64 = 0;
    for index in 0..judged.requests {
        // An accepted list has every request.
        let Ok((request, next)) = requests::request_at(list, place) else {
            return Ok(());
        };
        let served = match one(session, request) {
            Ok(served) => served,
            Err(refusal) => return println!(rt; "request {index} {}", u8::from(refusal)),
        };
        let outcome = served.outcome;
        let messages = outcome.messages;
        match request {
            Request::Combine(node) => println!(rt; "C {node} {} {messages}", outcome.answer)?,
            Request::Write(node, value) => println!(rt; "W {node} {value} {messages}")?,
        }
        session = served.session;
        place = next;
        sum += u64::from(messages);
    }
    println!(rt; "total {sum}")
}

// One request, with a log of its own: from bit 0 on, with room for the 19,380 bits that a request
// takes at most.
fn one(session: Session, request: Request) -> Result<Served, Refusal> {
    aggregate::request(session, request, &mut [0; 2423], 0)
}
