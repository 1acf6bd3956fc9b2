// Reading the jobs.
ghost use Rattle.std.specs.Prelude.{◌≤◌, length};

use crate::repeat::Call;
use std::io::Read;

// What stands before the table of a job: the call that is made, the number of the table's bytes in 3
// bytes, and how many times the call is made in 4 bytes.
#[derive(Clone, Copy)]
pub struct Head {
    pub call: Call,
    pub size: usize,
    pub times: u32,
}

impl Head {
    // That of the next job, if all of it could be read.
    pub fn read(input: &mut impl Read) -> Option<Head> {
        let mut head = [0u8; 8];
        if !full(input, &mut head) {
            return None;
        }
        let [letter, x, y, z, a, b, c, d] = head;
        Some(Head {
            call: Call::from(letter),
            size: u32::from_be_bytes([0, x, y, z]) as usize,
            times: u32::from_be_bytes([a, b, c, d]),
        })
    }
}

// Whether all of the bytes could be read.
pub fn full(input: &mut impl Read, bytes: &mut [u8]) -> bool {
    fill(input, bytes) == bytes.len()
}

// Reads until the bytes are full or the input ends, and answers how many bytes were read. A read that fails
// ends the input there, also one that was interrupted, which `read_exact` would try again.
fn fill(input: &mut impl Read, bytes: &mut [u8]) -> usize
    ensures { result ≤ length bytes.new }
{
    let mut size = 0;
    while size < bytes.len() {
        let Ok(got) = input.read(&mut bytes[size..]) else {
            return size;
        };
        if got == 0 {
            return size;
        }
        size += got;
    }
    size
}
