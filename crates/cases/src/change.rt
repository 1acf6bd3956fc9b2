// Sessions with one entry changed.
use crate::show::low;
use session::{Pairs, Session};

// The entry is 65536 times the array's number, and the place in it: 0 count, 1 parents, 2 values, 3
// to 5 lease, cache and messages from child to parent, 6 to 8 from parent to child, 9 accepted.
// The numbers are told apart here alone: an enum of them would be a second table of the same ten.
pub fn entry(session: &mut Session, entry: u64, value: u64) {
    let i = (entry % 256) as usize;
    match entry / 65536 {
        0 => session.tree.count = (value % 65536) as u16,
        1 => session.tree.parents[i] = (value % 256) as u8,
        2 => session.values[i] = i32::try_from(value.cast_signed()).unwrap_or(0),
        array @ 3..6 => pairs(&mut session.up, array - 3, i, value),
        array @ 6..9 => pairs(&mut session.down, array - 6, i, value),
        _ => session.accepted = low(value),
    }
}

fn pairs(pairs: &mut Pairs, array: u64, i: usize, value: u64) {
    match array {
        0 => pairs.lease[i % 256] = (value % 256) as u8,
        1 => pairs.cache[i % 256] = value.cast_signed(),
        _ => pairs.messages[i % 256] = low(value),
    }
}
