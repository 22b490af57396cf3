// The calls that a record can name, by their numbers.
ghost use Rattle.recording.specs.CallNumbers.{Numbered};

use pool::Refusal;

#[derive(Clone, Copy, PartialEq, Eq)]
pub enum Call {
    Root,
    Fix,
    Unfix,
    Write,
    Link,
    Unlink,
    Evict,
    Settle,
    Find,
}

impl TryFrom<u8> for Call {
    type Error = Refusal;

    ghost try_from_gives = { Numbered };

    fn try_from(number: u8) -> Result<Call, Refusal> {
        match number {
            1 => Ok(Call::Root),
            2 => Ok(Call::Fix),
            3 => Ok(Call::Unfix),
            4 => Ok(Call::Write),
            5 => Ok(Call::Link),
            6 => Ok(Call::Unlink),
            7 => Ok(Call::Evict),
            8 => Ok(Call::Settle),
            9 => Ok(Call::Find),
            _ => Err(Refusal::NoCall),
        }
    }
}
