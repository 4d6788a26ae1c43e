// The jobs of a file by its directory: looking a job number up, and the sealed body of an entry. Both calls are total, and take any bytes
// for a file. They are parts of finding and opening, made after `admission::admit`, and are not 01's finding: a reader of archives calls
// `archive` and `opening`, which begin with the whole check.
#![tactic(auto)]

ghost use Rattle.std.specs.Prelude.{◌≡◌};
ghost use Rattle.refusals.specs.Numbers.{answer_of};
ghost use Rattle.bodies.specs.Bodies.{lookup_of, BodyPart};

use octets::{part, u32_at};
use refusals::Refusal;

// Looks a job number up in the directory of a file.
#[tactic(auto, unfolding(refusals::specs::Cases::first_of, crate::specs::Bodies::number_cases))]
pub fn lookup(file: &[u8], number: &[u8]) -> Result<usize, Refusal>
    ensures { answer_of result ≡ lookup_of file.now number.now }
{
    if !jobnumber::is_job_number(number) {
        return Err(Refusal::NoJobNumber);
    }
    directory::search(header::directory(file), number)
}

// The sealed body of entry i of a file, as far as the file reaches.
pub fn body_at(file: &[u8], i: usize) -> &[u8]
    ensures { BodyPart file.entry i result }
{
    let entry = directory::entry(header::directory(file), i);
    part(file, u32_at(entry, 8), u32_at(entry, 12))
}
