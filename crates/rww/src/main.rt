// Serves the requests of a list to a session of a table's tree, and prints what comes of each.
//
// The table is the file `tree.tab` and the list the file `requests.lst`, both of the current folder.
// Of each file at most one byte more is read than the longest that can be accepted has: 225 bytes of
// table, 20,994 of list. That decides as the whole file does (`TableFirstBytes` and
// `ListFirstBytes`).
#![tactic(auto)]

mod files; // reading a file
mod serve; // the requests of a list

use session::Session;
use std::io;
use std::rt::Files;

// The table is judged first: where it is refused, the list is not read. What cannot be printed ends
// the program with that error.
fn main(rt: HostRuntime) -> io::Result<()> {
    let mut room = [0u8; 226];
    let size = files::read(&rt, "tree.tab", &mut room);
    match table::read(&room[..size]).and_then(Session::fresh) {
        Ok(session) => requests(&rt, session),
        Err(refusal) => println!(rt; "table {}", u8::from(refusal)),
    }
}

fn requests(rt: &(impl Files + Print), session: Session) -> io::Result<()> {
    let mut room = [0u8; 20995];
    let size = files::read(rt, "requests.lst", &mut room);
    serve::list(rt, session, &room[..size])
}
