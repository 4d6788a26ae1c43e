// Refusals, in the papers' numbers: which case applies first, and what a call answers and leaves. The code has the refusals by name, and
// the test of a round count, which several calls share.
#![tactic(auto)]

ghost use Rattle.std.specs.Prelude.{◌≡◌};
ghost use Rattle.refusals.specs.Cases.{first_of};
ghost use Rattle.refusals.specs.Shared.{rounds_cases};
ghost use Rattle.refusals.specs.Numbers.{number, number_in};

// Why a call refuses, in the order of the papers' numbers.
#[derive(Clone, Copy, Debug, PartialEq, Eq)]
pub enum Refusal {
    KeyLength,
    Direction,
    RoundCount,
    RunLength,
    FileTooShort,
    FileTooLong,
    UnknownLayout,
    OtherKeySize,
    JobCount,
    StatedLength,
    NoRoom,
    KeyCheck,
    NotDigits,
    NotAscending,
    BodyStart,
    BodyEnd,
    BytesLeft,
    NoJobNumber,
    UnknownJob,
    BufferTooShort,
    SheetLength,
    SheetKeyLength,
    TagLength,
    OtherLayout,
    TagDiffers,
    RangeEnd,
    ListLength,
}

impl From<Refusal> for u32 {
    ghost from_gives = { λ refusal n. n ≡ number refusal };

    // The papers' number.
    fn from(refusal: Refusal) -> u32 {
        match refusal {
            Refusal::KeyLength => 1,
            Refusal::Direction => 2,
            Refusal::RoundCount => 3,
            Refusal::RunLength => 4,
            Refusal::FileTooShort => 5,
            Refusal::FileTooLong => 6,
            Refusal::UnknownLayout => 7,
            Refusal::OtherKeySize => 8,
            Refusal::JobCount => 9,
            Refusal::StatedLength => 10,
            Refusal::NoRoom => 11,
            Refusal::KeyCheck => 12,
            Refusal::NotDigits => 13,
            Refusal::NotAscending => 14,
            Refusal::BodyStart => 15,
            Refusal::BodyEnd => 16,
            Refusal::BytesLeft => 17,
            Refusal::NoJobNumber => 18,
            Refusal::UnknownJob => 19,
            Refusal::BufferTooShort => 20,
            Refusal::SheetLength => 21,
            Refusal::SheetKeyLength => 22,
            Refusal::TagLength => 23,
            Refusal::OtherLayout => 24,
            Refusal::TagDiffers => 25,
            Refusal::RangeEnd => 26,
            Refusal::ListLength => 27,
        }
    }
}

// The number that a C caller is answered: 0, or the refusal's.
pub fn number_of<T: Drop>(answer: Result<T, Refusal>) -> u32
    ensures { result ≡ number_in answer }
{
    match answer {
        Ok(_) => 0,
        Err(refusal) => u32::from(refusal),
    }
}

// Whether a schedule may have n rounds: refusal 3 where it may not.
#[tactic(auto, unfolding(crate::specs::Cases::first_of, crate::specs::Shared::rounds_cases, crate::specs::Shared::good_rounds))]
pub fn check_rounds(n: usize) -> Result<(), Refusal>
    ensures { number_in result ≡ first_of (rounds_cases n) }
{
    match n {
        12 | 14 | 16 => Ok(()),
        _ => Err(Refusal::RoundCount),
    }
}
