// ARIA's circuit as a definition over any boxes, the schedule that a run works under, and what every engine promises of a run. The code
// needs no box: it takes round keys out of a schedule, and answers the refusals of a run.
#![tactic(auto)]

ghost use Rattle.std.specs.Prelude.{◌≡◌, true};
ghost use Rattle.refusals.specs.Numbers.{number_in};
ghost use Rattle.refusals.specs.Shared.{good_rounds};
ghost use Rattle.circuit.specs.Circuit.{key_at};
ghost use Rattle.circuit.specs.Run.{run_number};

use refusals::Refusal;

// A round count and seventeen round keys of sixteen bytes; key i, counted from 0, at bytes 16 i to 16 i + 15.
#[derive(Clone, Copy)]
pub struct Schedule {
    pub rounds: usize,
    pub keys: [u8; 272],
}

// A schedule of 12, 14 or 16 rounds, which a run under it need not ask again.
#[derive(Clone, Copy)]
pub struct GoodSchedule {
    pub schedule: Schedule,
    pub ghost good: { good_rounds schedule.rounds ≡ true },
}

impl TryFrom<Schedule> for GoodSchedule {
    type Error = Refusal;

    ghost use Rattle.circuit.specs.Good.{Accepts};

    ghost try_from_gives = { Accepts };

    // Refusal 3 where the round count is another.
    #[tactic(auto, using(crate::proofs::Runs::rounds_tests))]
    fn try_from(schedule: Schedule) -> Result<GoodSchedule, Refusal> {
        refusals::check_rounds(schedule.rounds)?;
        Ok(GoodSchedule { schedule })
    }
}

// Round key i of seventeen, counted from 0; zero past the last.
#[tactic(auto, using(crate::proofs::Keys::part_key, crate::proofs::Keys::no_key))]
pub fn round_key(keys: &[u8; 272], i: usize) -> [u8; 16]
    ensures { result ≡ key_at keys.now i }
{
    let all = &keys[..];
    if 16 < i {
        return [0u8; 16];
    }
    let at = 16 * i;
    let end = at + 16;
    blocks::load(&all[at..end])
}

// Whether a run of so many bytes may go under a schedule of so many rounds: refusal 3, then 4.
#[tactic(auto, using(crate::proofs::Runs::run_tests))]
pub fn check_run(rounds: usize, length: usize) -> Result<(), Refusal>
    ensures { number_in result ≡ run_number rounds length }
{
    refusals::check_rounds(rounds)?;
    if length % 16 != 0 {
        return Err(Refusal::RunLength);
    }
    Ok(())
}
