// What is asked of the program: 9 bytes on standard input. Bytes 0 to 3 are the seed and bytes 4 to 7 the count, little-endian; byte 8 is 0 for the lines and 1 for the records.
use std::io::Read;

const SIZE: usize = 9;

// What is written of each call.
#[derive(Clone, Copy, Debug, PartialEq, Eq)]
pub enum Form {
    Lines,
    Records,
}

#[derive(Clone, Copy, Debug, PartialEq, Eq)]
pub struct Order {
    pub seed: u32,
    pub count: u32,
    pub form: Form,
}

// None where there are fewer bytes, or the last is neither 0 nor 1.
pub fn read(input: &mut impl Read) -> Option<Order> {
    let mut bytes = [0u8; SIZE];
    input.read_exact(&mut bytes).ok()?;
    let [s0, s1, s2, s3, c0, c1, c2, c3, last] = bytes;
    let form = match last {
        0 => Form::Lines,
        1 => Form::Records,
        _ => return None,
    };
    Some(Order {
        seed: u32::from_le_bytes([s0, s1, s2, s3]),
        count: u32::from_le_bytes([c0, c1, c2, c3]),
        form,
    })
}
