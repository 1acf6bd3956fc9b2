// Fields and what they stand for.
use crate::show::{Bytes, Or};
use std::io;

// A number is put into a field of the bytes, and what is in the field is read.
pub fn field(
    rt: &impl Print,
    place: u64,
    width: u64,
    value: u64,
    bytes: &mut [u8],
) -> io::Result<()> {
    let put = if fields::put(bytes, place as usize, width as usize, value) {
        "put"
    } else {
        "refused"
    };
    let got = fields::get(bytes, place as usize, width as usize);
    println!(rt;
        "field {place} {width} {value}: {put}{} {}",
        Bytes(bytes),
        Or(got, "short")
    )
}

// What a number stands for in a field of so many bits, as an i64 and as an i32; and the number of
// the value that it stands for in 64, taken as an i32 where it is one.
pub fn sign(rt: &impl Print, number: u64, width: u64) -> io::Result<()> {
    let bits = width as usize;
    let value = twos::decode(number, bits);
    let value32 = twos::decode32(number, bits);
    let whole = number.cast_signed();
    let encoded = match i32::try_from(whole) {
        Ok(short) => twos::encode32(short, bits),
        Err(_) => twos::encode(whole, bits),
    };
    println!(rt;
        "sign {number} {width}: {} {} {}",
        Or(value, "misfit"),
        Or(value32, "misfit"),
        Or(encoded, "misfit")
    )
}
