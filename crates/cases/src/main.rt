// Runs the cases on standard input and prints what comes of each.
//
// A case is a letter, the number of its bytes in 3 bytes, three numbers of 8 bytes, and its bytes.
#![tactic(auto)]

mod change; // sessions with one entry changed
mod input; // reading the cases
mod lists;
mod logs;
mod numbers; // fields and what they stand for
mod runs; // lists run in one call
mod sessions;
mod show; // printing
mod tables;
mod vectors; // outside vectors

use input::Head;
use std::io;
use std::io::Read;

// Runs as many cases as are there, at most a million. What cannot be printed ends the program with
// that error.
fn main(rt: HostRuntime) -> io::Result<()> {
    let mut input = rt.stdin();
    for _ in 0..1000000 {
        let Some(head) = Head::read(&mut input) else {
            return Ok(());
        };
        if !one(&rt, &mut input, head)? {
            return Ok(());
        }
    }
    Ok(())
}

// Runs the case with this head, and answers whether its bytes could be read. `bench` has this too, of its
// jobs: programs share no crate.
fn one(rt: &impl Print, input: &mut impl Read, head: Head) -> io::Result<bool> {
    let mut space = [0u8; 65600];
    let Some(bytes) = space.get_mut(..head.size) else {
        return Ok(false);
    };
    if !input::full(input, bytes) {
        return Ok(false);
    }
    run(rt, head, bytes)?;
    Ok(true)
}

// One case: its letter says what is done with the numbers and the bytes. The letters are told apart
// here alone: an enum of them would be a second table of the same twelve.
fn run(rt: &impl Print, head: Head, bytes: &mut [u8]) -> io::Result<()> {
    let Head {
        letter,
        a,
        b,
        c,
        ..
    } = head;
    match letter {
        b'F' => numbers::field(rt, a, b, c, bytes),
        b'S' => numbers::sign(rt, a, b),
        b'T' => tables::read(rt, bytes),
        b'W' => tables::write(rt, a, b, c, bytes),
        b'L' => lists::read(rt, bytes),
        b'I' => lists::item(rt, a, bytes),
        b'M' => logs::write(rt, a, b, c, bytes),
        b'R' => logs::read(rt, a, b, bytes),
        b'Q' => sessions::serve(rt, a, b, c, bytes),
        b'U' => sessions::unsound(rt, a, b, c, bytes),
        b'N' => runs::run(rt, a, b, c, bytes),
        b'V' => vectors::serve(rt, a, b, bytes),
        _ => println!(rt; "no such case"),
    }
}
