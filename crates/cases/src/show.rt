// What is printed in several places.
use refusal::Refusal;
use std::fmt;

// 0 for an answer, or the number of a refusal.
pub fn number<T>(answer: &Result<T, Refusal>) -> u8 {
    match answer {
        Ok(_) => 0,
        Err(refusal) => u8::from(*refusal),
    }
}

// A value, or a word where there is none.
#[derive(Clone, Copy)]
pub struct Or<T>(pub Result<T, Refusal>, pub &'static str);

impl<T: fmt::Display> fmt::Display for Or<T> {
    fn fmt<W: fmt::Write>(&self, f: &mut fmt::Formatter<W>) -> fmt::Result {
        match &self.0 {
            Ok(value) => write!(f, "{value}"),
            Err(_) => f.write_str(self.1),
        }
    }
}

// Bytes in hexadecimal, each behind a blank; of many, how many there are and a sum over them.
#[derive(Clone, Copy)]
pub struct Bytes<'a>(pub &'a [u8]);

impl fmt::Display for Bytes<'_> {
    fn fmt<W: fmt::Write>(&self, f: &mut fmt::Formatter<W>) -> fmt::Result {
        let bytes = self.0;
        if bytes.len() <= 32 {
            for x in bytes {
                write!(f, " {x:02x}")?;
            }
            return Ok(());
        }
        let sum = bytes.iter().fold(0, |sum, x| mixed(sum, u32::from(*x)));
        write!(f, " {} bytes, sum {sum}", bytes.len())
    }
}

// Bytes in hexadecimal, with no blanks; a dash for none.
#[derive(Clone, Copy)]
pub struct Digits<'a>(pub &'a [u8]);

impl fmt::Display for Digits<'_> {
    fn fmt<W: fmt::Write>(&self, f: &mut fmt::Formatter<W>) -> fmt::Result {
        if self.0.is_empty() {
            return f.write_str("-");
        }
        for x in self.0 {
            write!(f, "{x:02x}")?;
        }
        Ok(())
    }
}

// A sum, modulo 2^32, that tells where each of its parts stood. `bench` has it and `low` too.
pub fn mixed(sum: u32, x: u32) -> u32 {
    sum.wrapping_mul(31).wrapping_add(x)
}

// The last 32 bits of a number.
pub fn low(x: u64) -> u32 {
    (x % 4294967296) as u32
}
