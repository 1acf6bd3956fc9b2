// Requests, and the reader of a list of them.
//
// A list is the number of requests in 13 bits, then each request: 1 bit (0 combine, 1 write), the
// node in 8 bits, and for a write the value in 32 bits, two's complement; then zero bits to the byte.
// Every function takes any bytes and any place, and has one outcome. Nothing is copied.
#![tactic(auto)]

mod reader; // the requests of a list, one by one

ghost use Rattle.std.specs.Prelude.{◌≡◌};
ghost use Rattle.requests.specs.Reading.{item_at, judged_of};
ghost use Rattle.requests.specs.Told.{told_judged};

use refusal::Refusal;

// A request: a combine at a node, or a write of a value at a node. Whether the tree has such a node
// is not judged here.
#[derive(Clone, Copy, Debug, PartialEq, Eq)]
pub enum Request {
    Combine(u8),
    Write(u8, i32),
}

// What an accepted list has: how many requests, how many of them are combines, and the place of the
// first.
#[repr(C)]
#[derive(Clone, Copy, Debug, PartialEq, Eq)]
pub struct Judged {
    pub requests: usize,
    pub combines: usize,
    pub first: usize,
}

// A whole list, judged in one pass. Refusals: 1 the list ends before a field that is due, 5 the count
// is above 4,096, 4 a filling bit is set or bytes are left over. The first fault decides, and 4 comes
// last.
#[tactic(auto, using(crate::proofs::Walk::count_cut))]
pub fn judge(list: &[u8]) -> Result<Judged, Refusal>
    ensures { told_judged result ≡ judged_of list.now }
{
    let count = fields::get(list, 0, 13)?;
    if 4096 < count {
        return Err(Refusal::ListCount);
    }
    reader::requests(list, count as usize)
}

// The request at a place, and the place after it: from one place of a judged list to the next, beginning
// at the first. Refusal: 1 the list ends before the request does.
#[tactic(auto, using(fields::proofs::Rooms::found, crate::proofs::Steps::no_kind, crate::proofs::Steps::no_node, crate::proofs::Steps::node_byte, crate::proofs::Steps::combine_found, crate::proofs::Steps::no_value, crate::proofs::Steps::value_read, crate::proofs::Steps::write_found))]
pub fn request_at(list: &[u8], place: usize) -> Result<(Request, usize), Refusal>
    ensures { result ≡ item_at list.now place }
{
    let is_combine = fields::get(list, place, 1)? == 0;
    let node = fields::get(list, place + 1, 8)? as u8;
    if is_combine {
        return Ok((Request::Combine(node), place + 9));
    }
    let number = fields::get(list, place + 9, 32)?;
    let value = twos::decode32(number, 32).unwrap();
    Ok((Request::Write(node, value), place + 41))
}
