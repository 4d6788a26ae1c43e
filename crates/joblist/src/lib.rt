// A list of job numbers, eight bytes a number: its checks against the directory of a file, and which entries it names. The call is total,
// and takes any bytes for a file. Each number of the list is searched for once.
#![tactic(auto)]

ghost use Rattle.std.specs.Prelude.{◌≡◌, false, ◌||◌, ℕ, ◌<◌, eqb, get_or};
ghost use Rattle.joblist.specs.Marks.{Marked};

use octets::part;
use refusals::Refusal;

// Marks entry i too, if it is one of the first 64.
#[tactic(auto, using(crate::proofs::Marking::mark_more, crate::proofs::Marking::mark_none))]
fn mark_entry(named: &mut [bool; 64], i: usize)
    ensures { (j : ℕ) → j < 64 → get_or named.new j false ≡ (get_or named.old j false || eqb i j) }
{
    if i < 64 {
        named[i] = true;
    }
}

// Checks a list, number by number, and marks the entries that it names.
pub fn mark(file: &[u8], list: &[u8]) -> Result<[bool; 64], Refusal>
    ensures { Marked file.now list.now result }
{
    if list.len() % 8 != 0 {
        return Err(Refusal::ListLength);
    }
    let mut named = [false; 64];
    for k in 0..list.len() / 8 {
        let i = bodies::lookup(file, part(list, 8 * k, 8))?;
        mark_entry(&mut named, i);
    }
    Ok(named)
}
