// CMAC (SP 800-38B) with ARIA: the tag of a run of any length, and whether lent bytes are that tag, under a key and under a schedule. Here
// the message is laid out in blocks; the word-table engine encrypts them.
#![tactic(auto)]

ghost use Rattle.std.specs.Prelude.{◌≡◌, [], ◌∷◌, ◌++◌, ◌≤◌, Ok, length};
ghost use Rattle.refusals.specs.Cases.{first_of};
ghost use Rattle.refusals.specs.Numbers.{number_in};
ghost use Rattle.refusals.specs.Shared.{key_cases, rounds_cases};
ghost use Rattle.blocks.specs.Blocks.{block_of};
ghost use Rattle.expansion.specs.KeySchedule.{schedule_of};
ghost use Rattle.cmac.specs.Tag.{tag_under, Tags, verify_cases, verify_number, verify_number_under, WritesTag};

use circuit::{GoodSchedule, Schedule};
use refusals::Refusal;

// The last of a message as a block: filled with a byte 80 and zero bytes where it is less than one.
#[tactic(auto, using(crate::proofs::Generation::filled_short, crate::proofs::Generation::filled_full))]
fn filled(part: &[u8]) -> [u8; 16]
    requires { length part.now ≤ 16 }
    ensures { result ≡ block_of (part.now ++ 0x80 ∷ []) }
{
    let mut out = blocks::load(part);
    if part.len() < 16 {
        out[part.len()] = 0x80;
    }
    out
}

// The tag of a run under a good schedule.
pub fn tag_good(schedule: GoodSchedule, run: &[u8]) -> [u8; 16]
    ensures tag { result ≡ tag_under schedule.schedule run.now }
    ensures tagged { Tags (rounds_cases schedule.schedule.rounds) schedule.schedule run.now (Ok result) }
{
    let end = run.len().saturating_sub(1) / 16 * 16;
    let (front, last) = run.split_at(end);
    tables::chain(schedule.schedule, front, filled(last), last.len() == 16).unwrap()
}

// The tag of a run under a schedule; refusal 3.
#[tactic(auto, using(crate::proofs::Answers::tags_refused))]
pub fn tag_under(schedule: Schedule, run: &[u8]) -> Result<[u8; 16], Refusal>
    ensures { Tags (rounds_cases schedule.rounds) schedule run.now result }
{
    Ok(tag_good(GoodSchedule::try_from(schedule)?, run))
}

// The tag of a run under a key; refusal 1.
#[tactic(auto, using(crate::proofs::Answers::tags_refused, crate::proofs::Answers::tags_done))]
pub fn tag(key: &[u8], run: &[u8]) -> Result<[u8; 16], Refusal>
    ensures { Tags (key_cases (length key.now)) (schedule_of key.now) run.now result }
{
    Ok(tag_good(preparation::prepare(key)?, run))
}

// Writes the tag of a run under a key into a lent tag; refusals 1 and 23 leave the lent tag as it was.
#[tactic(auto, using(crate::proofs::Answers::writes_key, refusals::proofs::Numbers::number_some))]
pub fn tag_into(key: &[u8], run: &[u8], tag: &mut [u8]) -> Result<(), Refusal>
    ensures { WritesTag key.now run.now tag.old (number_in result) tag.new }
{
    let schedule = preparation::prepare(key)?;
    if tag.len() == 16 {
        blocks::store(tag_good(schedule, run), tag);
        Ok(())
    } else {
        Err(Refusal::TagLength)
    }
}

// Whether a lent tag is that of a run under a good schedule: refusals 23 and, where it differs, 25. All its bytes are looked at, whichever
// differ.
#[tactic(auto, using(crate::proofs::Answers::under_good))]
pub fn verify_good(schedule: GoodSchedule, run: &[u8], tag: &[u8]) -> Result<(), Refusal>
    ensures good { number_in result ≡ first_of (verify_cases [] schedule.schedule run.now tag.now) }
    ensures number { number_in result ≡ verify_number_under schedule.schedule run.now tag.now }
{
    if tag.len() != 16 {
        return Err(Refusal::TagLength);
    }
    if !blocks::equal(tag_good(schedule, run), blocks::load(tag)) {
        return Err(Refusal::TagDiffers);
    }
    Ok(())
}

// Whether a lent tag is that of a run under a schedule: refusal 3, then 23 and 25.
#[tactic(auto, using(crate::proofs::Answers::refused_first))]
pub fn verify_under(schedule: Schedule, run: &[u8], tag: &[u8]) -> Result<(), Refusal>
    ensures { number_in result ≡ verify_number_under schedule run.now tag.now }
{
    verify_good(GoodSchedule::try_from(schedule)?, run, tag)
}

// Whether a lent tag is that of a run under a key: refusal 1, then 23 and 25.
#[tactic(auto, using(crate::proofs::Answers::refused_first))]
pub fn verify(key: &[u8], run: &[u8], tag: &[u8]) -> Result<(), Refusal>
    ensures { number_in result ≡ verify_number key.now run.now tag.now }
{
    verify_good(preparation::prepare(key)?, run, tag)
}
