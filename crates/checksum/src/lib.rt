// The checksum of a text that comes in parts: the one that the command `cksum` gives.
#![tactic(auto)]

ghost use Rattle.std.specs.Prelude.{◌≡◌};
ghost use Rattle.checksum.specs.Checksum.{shifted, with_byte, with_bytes, octets, complement};
ghost use Rattle.checksum.specs.Parts.{empty_sum, added, value_of};

// The polynomial, its highest term left out.
const POLYNOMIAL: u32 = 0x04C1_1DB7;

// What the parts so far leave: their check, and the low 64 bits of their length.
#[derive(Drop)]
pub struct Sum {
    pub crc: u32,
    pub length: u64,
}

// Shifts a bit out at the top, and adds the polynomial where it is 1.
#[tactic(auto, unfolding(crate::specs::Checksum::shifted))]
fn shifted(crc: u32) -> u32
    ensures { result ≡ shifted crc }
{
    (crc << 1) ^ (POLYNOMIAL * (crc >> 31))
}

// Puts a byte in at the top.
fn with_byte(crc: u32, byte: u8) -> u32
    ensures { result ≡ with_byte crc byte }
{
    let mut crc = crc ^ (u32::from(byte) << 24);
    for _ in 0..u8::BITS {
        crc = shifted(crc);
    }
    crc
}

// Puts bytes in, one after the other.
fn with_bytes(crc: u32, bytes: &[u8]) -> u32
    ensures { result ≡ with_bytes crc bytes.now }
{
    bytes.iter().fold(crc, |crc, byte| with_byte(crc, *byte))
}

// Puts a number in, its lowest byte first.
fn with_number(crc: u32, n: u64) -> u32
    ensures { result ≡ with_bytes crc (octets 8 n) }
{
    let mut crc = crc;
    let mut n = n;
    while n > 0 {
        crc = with_byte(crc, (n % 256) as u8);
        n /= 256;
    }
    crc
}

// Turns every bit.
fn complement(crc: u32) -> u32
    ensures { result ≡ complement crc }
{
    u32::MAX - crc
}

// The sum of no part.
pub fn empty() -> Sum
    ensures { result ≡ empty_sum }
{
    Sum { crc: 0, length: 0 }
}

// The sum with one part more.
#[tactic(auto, unfolding(crate::specs::Parts::added))]
pub fn add(sum: Sum, part: &[u8]) -> Sum
    ensures { result ≡ added sum part.now }
{
    Sum {
        crc: with_bytes(sum.crc, part),
        length: sum.length.wrapping_add(part.len() as u64),
    }
}

// The checksum of the parts joined.
#[tactic(auto, unfolding(crate::specs::Parts::value_of))]
pub fn value(sum: Sum) -> u32
    ensures { result ≡ value_of sum }
{
    complement(with_number(sum.crc, sum.length))
}
