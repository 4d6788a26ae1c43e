// What the four programs share: the files of the keys, and what goes wrong and is said of it.
#![tactic(auto)]

ghost use Rattle.std.specs.Prelude.{◌≡◌, ◌++◌, ◌≤◌, length};
ghost use Rattle.listing.specs.Listing.{Holds};
ghost use Rattle.programs.specs.Failures.{failure_text};
ghost use Rattle.programs.specs.declared.Failure.TheVariants.{Read, Write, Refused};

use arrayvec::ArrayVec;
use inputs::ReadFailed;
pub use inputs::{KeyFile, key_file};
use listing::Listing;
use refusals::Refusal;
use std::io;

// What may go wrong: a read of standard input, or of the sheet of jobs, a write of the output; or a call refuses.
#[derive(Clone, Copy, Debug, PartialEq, Eq)]
pub enum Failure {
    Read,
    ReadSheet,
    Write,
    Refused(Refusal),
}

// The sheet is the one file beside standard input that has to be read to its end, and its program says so.
impl From<ReadFailed> for Failure {
    ghost from_gives = { λ _ f. f ≡ Read };

    fn from(_: ReadFailed) -> Failure {
        Failure::Read
    }
}

impl From<io::Error> for Failure {
    ghost from_gives = { λ _ f. f ≡ Write };

    fn from(_: io::Error) -> Failure {
        Failure::Write
    }
}

impl From<Refusal> for Failure {
    ghost from_gives = { λ refusal f. f ≡ Refused refusal };

    fn from(refusal: Refusal) -> Failure {
        Failure::Refused(refusal)
    }
}

// A line of a program's name and more.
#[tactic(auto, using(listing::proofs::Fits::held_whole, listing::proofs::Fits::held_as))]
fn named(name: [u8; 4], more: &[u8]) -> Listing
    requires { length more.now ≤ 1000 }
    ensures { Holds (name ++ more.now) result }
{
    let mut text = ArrayVec::<u8, 1004>::new();
    text.try_extend_from_slice(&name).unwrap();
    text.try_extend_from_slice(more).unwrap();
    Listing::of(&text)
}

impl Failure {
    // The line that a program of that name says of it.
    #[tactic(auto, using(listing::proofs::Fits::held_as))]
    pub fn text(self, name: [u8; 4]) -> Listing
        ensures { Holds (failure_text name self) result }
    {
        match self {
            Failure::Read => named(name, b": could not read\n"),
            Failure::ReadSheet => named(name, b": could not read sheet.bin\n"),
            Failure::Write => named(name, b": could not write\n"),
            Failure::Refused(refusal) => listing::refusal(u32::from(refusal)),
        }
    }
}
