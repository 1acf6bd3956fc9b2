// Reading the cases.
ghost use Rattle.std.specs.Prelude.{◌≤◌, length};

use std::io::Read;

// What stands before the bytes of a case: its letter, the number of its bytes in 3 bytes, and three
// numbers of 8 bytes.
#[derive(Clone, Copy)]
pub struct Head {
    pub letter: u8,
    pub size: usize,
    pub a: u64,
    pub b: u64,
    pub c: u64,
}

impl Head {
    // That of the next case, if all of it could be read.
    pub fn read(input: &mut impl Read) -> Option<Head> {
        let mut head = [0u8; 28];
        if !full(input, &mut head) {
            return None;
        }
        Some(Head {
            letter: head[0],
            size: number(&head, 8, 24) as usize,
            a: number(&head, 32, 64),
            b: number(&head, 96, 64),
            c: number(&head, 160, 64),
        })
    }
}

fn number(head: &[u8], place: usize, width: usize) -> u64 {
    fields::get(head, place, width).unwrap_or(0)
}

// Whether all of the bytes could be read.
pub fn full(input: &mut impl Read, bytes: &mut [u8]) -> bool {
    fill(input, bytes) == bytes.len()
}

// Reads until the bytes are full or the input ends, and answers how many bytes were read. A read that fails
// ends the input there, also one that was interrupted, which `read_exact` would try again.
fn fill(input: &mut impl Read, bytes: &mut [u8]) -> usize
    ensures { result ≤ length bytes.new }
{
    let mut size = 0;
    while size < bytes.len() {
        let Ok(got) = input.read(&mut bytes[size..]) else {
            return size;
        };
        if got == 0 {
            return size;
        }
        size += got;
    }
    size
}
