// The plain engine: ARIA's rounds byte by byte, over the four boxes.
#![tactic(auto)]

ghost use Rattle.std.specs.Prelude.{◌≡◌};
ghost use Rattle.refusals.specs.Numbers.{number_in};
ghost use Rattle.boxes.specs.Boxes.{boxes};
ghost use Rattle.circuit.specs.Run.{Ran};

use circuit::Schedule;
use refusals::Refusal;
use runs::Rounds;

// The four boxes, made once for a run.
#[derive(Drop)]
struct Boxes {
    t: [[u8; 256]; 4],
    ghost are: { t ≡ boxes },
}

// A state is the block itself.
#[tactic(auto, using(crate::proofs::Family::by_boxes))]
impl Rounds for Boxes {
    type State = [u8; 16];

    ghost block = { λ b. b };

    fn enter(&self, bytes: [u8; 16]) -> [u8; 16] {
        bytes
    }

    fn odd(&self, key: [u8; 16], x: [u8; 16]) -> [u8; 16] {
        rounds::odd_round(&self.t, key, x)
    }

    fn even(&self, key: [u8; 16], x: [u8; 16]) -> [u8; 16] {
        rounds::even_round(&self.t, key, x)
    }

    fn last(&self, key: [u8; 16], end: [u8; 16], x: [u8; 16]) -> [u8; 16] {
        rounds::last_round(&self.t, key, end, x)
    }
}

// A run under a schedule: refusal 3, then 4, before the tables are made.
#[tactic(auto, using(runs::proofs::Checked::checked), unfolding(circuit::specs::Run::run_bytes))]
pub fn run(schedule: Schedule, run: &mut [u8]) -> Result<(), Refusal>
    ensures { Ran schedule run.old (number_in result) run.new }
{
    let n = schedule.rounds;
    circuit::check_run(n, run.len())?;
    let boxes = Boxes { t: sbox::tables() };
    runs::run(&boxes, schedule, run)
}
