// Block runs under a key, forward and back, by either engine.
#![tactic(auto)]

ghost use Rattle.std.specs.Prelude.{◌≡◌, IfOk};
ghost use Rattle.refusals.specs.Cases.{first_of};
ghost use Rattle.refusals.specs.Numbers.{number_in};
ghost use Rattle.refusals.specs.Shared.{direction_cases};
ghost use Rattle.keyed.specs.KeyRun.{directed, RanUnderKey};

use circuit::GoodSchedule;
use engines::Engine;
use refusals::Refusal;

// The schedule that a run in a direction works under: a key's own forward, its decryption schedule back. A direction is a number, since
// C hands one, and every other than 0 and 1 is refusal 2.
#[tactic(auto, using(refusals::proofs::Shared::direction_0, refusals::proofs::Shared::direction_2))]
fn for_direction(good: GoodSchedule, direction: u32) -> Result<GoodSchedule, Refusal>
    ensures number { number_in result ≡ first_of (direction_cases direction) }
    ensures schedule { IfOk result (λ found. found.schedule ≡ directed good.schedule direction) }
{
    match direction {
        0 => Ok(good),
        1 => Ok(expansion::reversed(good)),
        _ => Err(Refusal::Direction),
    }
}

// A run under a key: refusal 1, 2 or 4.
pub fn run(engine: Engine, key: &[u8], direction: u32, run: &mut [u8]) -> Result<(), Refusal>
    ensures { RanUnderKey key.now direction run.old (number_in result) run.new }
{
    let prepared = preparation::prepare(key)?;
    let directed = for_direction(prepared, direction)?;
    engines::run_by(engine, directed.schedule, run)
}
