// Does a request many times over, for a clock outside, and prints a sum of what came of it.
//
// A job on standard input is a letter, the number of its table's bytes in 3 bytes, how many times in
// 4 bytes, and the table.
#![tactic(auto)]

mod input; // reading the jobs
mod repeat; // one call, many times over

use input::Head;
use session::Session;
use std::io;
use std::io::Read;

// Does as many jobs as are there, at most a thousand. What cannot be printed ends the program with
// that error.
fn main(rt: HostRuntime) -> io::Result<()> {
    let mut input = rt.stdin();
    for _ in 0..1000 {
        let Some(head) = Head::read(&mut input) else {
            return Ok(());
        };
        if !one(&rt, &mut input, head)? {
            return Ok(());
        }
    }
    Ok(())
}

// Does the job with this head, and answers whether its table could be read. `cases` has this too, of its
// cases: programs share no crate.
fn one(rt: &impl Print, input: &mut impl Read, head: Head) -> io::Result<bool> {
    let mut space = [0u8; 256];
    let Some(table) = space.get_mut(..head.size) else {
        return Ok(false);
    };
    if !input::full(input, table) {
        return Ok(false);
    }
    run(rt, head, table)?;
    Ok(true)
}

// Makes the job's call to a session of the table's tree.
fn run(rt: &impl Print, head: Head, table: &[u8]) -> io::Result<()> {
    let mut log = [0u8; 65536];
    match table::read(table).and_then(Session::fresh) {
        Ok(session) => println!(rt; "{}", repeat::sum(head.call, head.times, session, &mut log)),
        Err(_) => println!(rt; "no table"),
    }
}
