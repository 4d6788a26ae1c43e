// Demand 3 in code: a run under a schedule, its decryption schedule, and a run under that, on one run, by any two of the engines.
#![tactic(auto)]

ghost use Rattle.roundtrip.specs.RoundTrip.{RoundTripped};

use circuit::Schedule;
use engines::Engine;
use refusals::Refusal;

// What the three calls answered, in their order. Where there is no decryption schedule the second run has one of no rounds and zero keys.
#[derive(Clone, Copy)]
pub struct Answered {
    pub first: Result<(), Refusal>,
    pub reversed: Result<(), Refusal>,
    pub second: Result<(), Refusal>,
}

// The three calls, one after the other on one run. The bytes that the first call leaves are shown in a second buffer, as far as it reaches.
pub fn round_trip(
    first: Engine,
    second: Engine,
    schedule: Schedule,
    run: &mut [u8],
    middle: &mut [u8],
) -> Answered
    ensures { RoundTripped schedule run.old middle.old result run.new middle.new }
{
    let there = engines::run_by(first, schedule, run);
    octets::copy(run, middle);
    match expansion::decryption_schedule(schedule) {
        Ok(good) => Answered {
            first: there,
            reversed: Ok(()),
            second: engines::run_by(second, good.schedule, run),
        },
        Err(refusal) => {
            let none = Schedule {
                rounds: 0,
                keys: [0u8; 272],
            };
            Answered {
                first: there,
                reversed: Err(refusal),
                second: engines::run_by(second, none, run),
            }
        }
    }
}
