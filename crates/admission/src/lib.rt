// Admission: the whole check of an archive under a key and a tag key, with which every call that reads one begins, and the key check, by
// which it tells the key. Each key is prepared once.
#![tactic(auto)]

ghost use Rattle.std.specs.Prelude.{◌≡◌, List, ℕ, length, Ok};
ghost use Rattle.refusals.specs.Cases.{first_of};
ghost use Rattle.refusals.specs.Numbers.{number_in};
ghost use Rattle.expansion.specs.KeySchedule.{Prepares};
ghost use Rattle.admission.specs.Check.{key_check, key_check_under, file_cases, under_key_cases, Admits};
ghost use Rattle.admission.specs.Internal.{Beside, AdmitsUnder};

use circuit::{GoodSchedule, Schedule};
use octets::part;
use refusals::Refusal;

// What an archive that passes the whole check is read with: the schedule of the key, and that of the tag key where there is one.
#[derive(Clone, Copy)]
pub struct Admitted {
    pub schedule: GoodSchedule,
    pub tag_schedule: Option<GoodSchedule>,
}

// Why an archive is refused, and what had been prepared for its check: the schedule of the key where it is good, and then that of the tag
// key where that is good too.
#[derive(Clone, Copy)]
pub struct NotAdmitted {
    pub refusal: Refusal,
    pub schedule: Option<GoodSchedule>,
    pub tag_schedule: Option<GoodSchedule>,
}

impl From<NotAdmitted> for Refusal {
    ghost from_gives = { λ refused refusal. refusal ≡ refused.refusal };

    fn from(refused: NotAdmitted) -> Refusal {
        refused.refusal
    }
}

// The key check of a good schedule.
pub fn key_check(schedule: GoodSchedule) -> [u8; 8]
    ensures check { result ≡ key_check schedule.schedule }
    ensures under { result ≡ key_check_under schedule.schedule }
{
    let mut block = [255u8; 16];
    tables::run(schedule.schedule, &mut block).unwrap();
    let mut check = [0u8; 8];
    octets::copy(&block, &mut check);
    check
}

// The key check of any schedule; eight zero bytes for a bad round count.
#[tactic(auto, using(crate::proofs::KeyCheck::of_any))]
pub fn key_check_under(schedule: Schedule) -> [u8; 8]
    ensures { result ≡ key_check_under schedule }
{
    match GoodSchedule::try_from(schedule) {
        Ok(good) => key_check(good),
        Err(_) => [0u8; 8],
    }
}

// Checks a file that has to be of a layout, but for its tag.
#[tactic(auto, using(crate::proofs::Checking::in_stages), unfolding(crate::specs::Check::file_cases_by))]
fn check_file(
    layout: usize,
    schedule: GoodSchedule,
    keysize: usize,
    file: &[u8],
) -> Result<(), Refusal>
    ensures { number_in result ≡ first_of (file_cases layout schedule.schedule keysize file.now) }
{
    header::check(layout, keysize, key_check(schedule), file)?;
    directory::check(
        header::directory(file),
        header::directory_end(file),
        header::bodies_end(file),
    )
}

// Checks a file that has to be of layout 2, its tag last, under the schedules of a good key and a good tag key.
fn check_tagged(
    schedule: GoodSchedule,
    tag_schedule: GoodSchedule,
    keysize: usize,
    file: &[u8],
) -> Result<(), Refusal>
    ensures { (tag_key : List ℕ) → (length tag_key ≡ 0 → ⊥) → Prepares tag_key (Ok tag_schedule)
        → number_in result ≡ first_of (under_key_cases schedule.schedule keysize tag_key file.now) }
{
    check_file(2, schedule, keysize, file)?;
    let end = header::bodies_end(file);
    cmac::verify_good(tag_schedule, part(file, 0, end), part(file, end, 16))
}

// What a check of the file came to, beside the schedules that it was made under.
fn beside(
    schedule: GoodSchedule,
    tag_schedule: Option<GoodSchedule>,
    checked: Result<(), Refusal>,
) -> Result<Admitted, NotAdmitted>
    ensures { Beside schedule tag_schedule (number_in checked) result }
{
    match checked {
        Ok(()) => Ok(Admitted {
            schedule,
            tag_schedule,
        }),
        Err(refusal) => Err(NotAdmitted {
            refusal,
            schedule: Some(schedule),
            tag_schedule,
        }),
    }
}

// The check of the tag key and of the file. A tag key of 0 bytes means none: it is not prepared, and the file has to be of layout 1.
fn admit_under(
    schedule: GoodSchedule,
    keysize: usize,
    tag_key: &[u8],
    file: &[u8],
) -> Result<Admitted, NotAdmitted>
    ensures { AdmitsUnder schedule.schedule keysize tag_key.now file.now result }
{
    if tag_key.len() == 0 {
        return beside(schedule, None, check_file(1, schedule, keysize, file));
    }
    match preparation::prepare(tag_key) {
        Ok(tag_schedule) => beside(
            schedule,
            Some(tag_schedule),
            check_tagged(schedule, tag_schedule, keysize, file),
        ),
        Err(refusal) => beside(schedule, None, Err(refusal)),
    }
}

// The whole check: the key, then the tag key, the file, its tag.
pub fn admit(key: &[u8], tag_key: &[u8], file: &[u8]) -> Result<Admitted, NotAdmitted>
    ensures { Admits key.now tag_key.now file.now result }
{
    match preparation::prepare(key) {
        Ok(schedule) => admit_under(schedule, key.len(), tag_key, file),
        Err(refusal) => Err(NotAdmitted {
            refusal,
            schedule: None,
            tag_schedule: None,
        }),
    }
}
