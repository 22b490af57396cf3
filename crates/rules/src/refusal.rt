// Why a call is refused, and its number. Documents 01 and 02 number the rules; rules.txt has their sentences.
ghost use Rattle.std.specs.Prelude.{◌≡◌};
ghost use Rattle.rules.specs.RefusalNumbers.{number_of, refused_by};

// The rule that a call is refused by, in the order of the numbers.
#[derive(Clone, Copy, Debug, PartialEq, Eq)]
pub enum Refusal {
    WrongLength,
    Disagree,
    BadHandle,
    BadSlot,
    BadRange,
    BadPage,
    EmptySlot,
    FullSlot,
    AlreadyNamed,
    Resident,
    NotResident,
    TooManyPins,
    BadStoredPage,
    NoFrame,
    UnsoundStore,
    // The listing's own: no rule of a call.
    NoCall,
    IsRoot,
    IsPinned,
    IsParent,
    IsLocked,
    AtCeiling,
    BadStore,
}

impl Refusal {
    pub fn number(self) -> u8
        ensures { result ≡ number_of self }
    {
        match self {
            Refusal::WrongLength => 1,
            Refusal::Disagree => 2,
            Refusal::BadHandle => 3,
            Refusal::BadSlot => 4,
            Refusal::BadRange => 5,
            Refusal::BadPage => 6,
            Refusal::EmptySlot => 7,
            Refusal::FullSlot => 8,
            Refusal::AlreadyNamed => 9,
            Refusal::Resident => 10,
            Refusal::NotResident => 11,
            Refusal::TooManyPins => 13,
            Refusal::BadStoredPage => 14,
            Refusal::NoFrame => 15,
            Refusal::UnsoundStore => 16,
            Refusal::NoCall => 17,
            Refusal::IsRoot => 20,
            Refusal::IsPinned => 21,
            Refusal::IsParent => 22,
            Refusal::IsLocked => 26,
            Refusal::AtCeiling => 27,
            Refusal::BadStore => 28,
        }
    }
}

// An answer's number: 0 where the call was accepted.
pub fn refusal_number<A: Copy>(answer: Result<A, Refusal>) -> u8
    ensures { result ≡ refused_by answer }
{
    match answer {
        Ok(_) => 0,
        Err(refusal) => refusal.number(),
    }
}
