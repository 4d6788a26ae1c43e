// The engines by name, so that a caller picks one: 01 calls them paths. What they promise of a run is the same.
#![tactic(auto)]

ghost use Rattle.refusals.specs.Numbers.{number_in};
ghost use Rattle.circuit.specs.Run.{Ran};

use circuit::Schedule;
use refusals::Refusal;

#[derive(Clone, Copy, Debug, PartialEq, Eq)]
pub enum Engine {
    Plain,
    Tables,
}

// A run under a schedule by either engine: refusal 3, then 4.
pub fn run_by(engine: Engine, schedule: Schedule, run: &mut [u8]) -> Result<(), Refusal>
    ensures { Ran schedule run.old (number_in result) run.new }
{
    match engine {
        Engine::Plain => plain::run(schedule, run),
        Engine::Tables => tables::run(schedule, run),
    }
}
