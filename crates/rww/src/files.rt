// Reading a file.
ghost use Rattle.std.specs.Prelude.{◌≡◌, ◌≤◌, length, take};

use std::fs;
use std::io::Read;
use std::rt::Files;

// Reads as much of a file as there is room for, and answers how many bytes that are. A file that
// cannot be opened has none, and one that cannot be read on ends there. The room is its caller's, since
// there is no heap.
pub fn read(files: &impl Files, name: &str, room: &mut [u8]) -> usize
    ensures bound { result ≤ length room.new }
    ensures prefix { result ≡ length (take result room.new) }
{
    match fs::open(files, name) {
        Ok(mut file) => fill(&mut file, room),
        Err(_) => 0,
    }
}

// Reads until there is no more room or the file ends, and answers how many bytes were read. A read that
// fails ends the file there, also one that was interrupted, which `io::copy` would try again.
fn fill(file: &mut impl Read, room: &mut [u8]) -> usize
    ensures bound { result ≤ length room.new }
    ensures prefix { result ≡ length (take result room.new) }
{
    let mut size = 0;
    while size < room.len() {
        let Ok(got) = file.read(&mut room[size..]) else {
            return size;
        };
        if got == 0 {
            return size;
        }
        size += got;
    }
    size
}
