// Lists: judged, and their requests handed out.
ghost use Rattle.std.specs.Iterator.{at_most};

use crate::show::{self, Bytes};
use requests::{Judged, Request};
use std::{fmt, io};

// A list is judged, and its requests are handed out from the first place on.
pub fn read(rt: &impl Print, list: &[u8]) -> io::Result<()> {
    let judged = requests::judge(list);
    print!(rt; "list{}: {}", Bytes(list), show::number(&judged))?;
    if let Ok(judged) = judged {
        let sum = Requests::of(list, judged).fold(0, |sum, r| show::mixed(sum, number(r)));
        print!(rt;
            " {} requests, {} combines, sum {sum}",
            judged.requests, judged.combines
        )?;
    }
    println!(rt)
}

// Prints what stands at a place of a list.
pub fn item(rt: &impl Print, place: u64, list: &[u8]) -> io::Result<()> {
    print!(rt; "item {place} of{}: ", Bytes(list))?;
    match requests::request_at(list, place as usize) {
        Ok((request, next)) => println!(rt; "{} to {next}", Words(request)),
        Err(_) => println!(rt; "short"),
    }
}

// The requests of a list.
#[derive(Clone, Copy)]
pub struct Requests<'a> {
    list: &'a [u8],
    place: usize,
    left: usize,
}

impl Requests<'_> {
    // Those of a list that was judged so.
    pub fn of(list: &[u8], judged: Judged) -> Requests<'_> {
        Requests {
            list,
            place: judged.first,
            left: judged.requests,
        }
    }
}

impl Iterator for Requests<'_> {
    type Item = Request;

    ghost remaining = { λ r. at_most r.left };

    fn next(&mut self) -> Option<Request> {
        self.left = self.left.checked_sub(1)?;
        let (request, next) = requests::request_at(self.list, self.place).ok()?;
        self.place = next;
        Some(request)
    }
}

// A request in words.
#[derive(Clone, Copy)]
struct Words(Request);

impl fmt::Display for Words {
    fn fmt<W: fmt::Write>(&self, f: &mut fmt::Formatter<W>) -> fmt::Result {
        match self.0 {
            Request::Combine(node) => write!(f, "combine {node}"),
            Request::Write(node, value) => write!(f, "write {node} {value}"),
        }
    }
}

fn number(request: Request) -> u32 {
    match request {
        Request::Combine(node) => u32::from(node),
        Request::Write(node, value) => show::mixed(u32::from(node), value.cast_unsigned()),
    }
}
