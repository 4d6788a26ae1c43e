// Runs of blocks under a schedule, by any engine: an engine brings ARIA's rounds, on a form of its own of the block in between.
#![tactic(auto)]

ghost use Rattle.std.specs.Prelude.{◌≡◌, ◌%◌, List, ℕ, length};
ghost use Rattle.refusals.specs.Numbers.{number_in};
ghost use Rattle.blocks.specs.Runs.{each_block};
ghost use Rattle.boxes.specs.Boxes.{box};
ghost use Rattle.circuit.specs.Circuit.{odd_round, even_round, last_round};
ghost use Rattle.circuit.specs.Run.{Ran, encrypted};

use circuit::{GoodSchedule, Schedule};
use refusals::Refusal;

// The rounds of an engine. A `State` is the block between two rounds, in the form that the engine computes with.
pub trait Rounds {
    type State: Copy;

    // The block that a state is.
    ghost block: { Self.State → List ℕ };

    // The state before the first round.
    fn enter(&self, bytes: [u8; 16]) -> Self::State
        ensures { block result ≡ bytes };

    fn odd(&self, key: [u8; 16], x: Self::State) -> Self::State
        ensures { block result ≡ odd_round box key (block x) };

    fn even(&self, key: [u8; 16], x: Self::State) -> Self::State
        ensures { block result ≡ even_round box key (block x) };

    // The last round, which has a key more.
    fn last(&self, key: [u8; 16], end: [u8; 16], x: Self::State) -> [u8; 16]
        ensures { result ≡ last_round box key end (block x) };
}

// A block through the rounds of a schedule, two at a time.
fn encrypt<E: Rounds>(engine: &E, good: &GoodSchedule, block: [u8; 16]) -> [u8; 16]
    ensures { result ≡ encrypted good.now.schedule block }
{
    let keys = &good.schedule.keys;
    let n = good.schedule.rounds;
    let mut x = engine.enter(block);
    for pair in 0..n / 2 - 1 {
        let y = engine.odd(circuit::round_key(keys, 2 * pair), x);
        x = engine.even(circuit::round_key(keys, 2 * pair + 1), y);
    }
    let y = engine.odd(circuit::round_key(keys, n - 2), x);
    engine.last(
        circuit::round_key(keys, n - 1),
        circuit::round_key(keys, n),
        y,
    )
}

// Each block of a run of whole blocks.
fn encrypt_blocks<E: Rounds>(engine: &E, good: &GoodSchedule, run: &mut [u8])
    requires { length run.old % 16 ≡ 0 }
    ensures { run.new ≡ each_block (encrypted good.now.schedule) run.old }
{
    for k in 0..run.len() / 16 {
        let part = &mut run[16 * k..16 * k + 16];
        let block = encrypt(engine, good, blocks::load(part));
        blocks::store(block, part);
    }
}

// A block by itself. It goes through `encrypt_blocks` as a run of one: were `encrypt` called elsewhere too, it would no longer be compiled
// into the loop over a run, which by the word tables then is slower by a sixth. With a hint to inline it always the byte boxes are.
#[tactic(auto, using(blocks::proofs::Runs::each_one))]
pub fn encrypt_one<E: Rounds>(engine: &E, good: &GoodSchedule, block: [u8; 16]) -> [u8; 16]
    ensures { result ≡ encrypted good.now.schedule block }
{
    let mut run = block;
    encrypt_blocks(engine, good, &mut run);
    run
}

// A run under a schedule: refusal 3, then 4.
#[tactic(auto, using(crate::proofs::Checked::checked), unfolding(circuit::specs::Run::run_bytes))]
pub fn run<E: Rounds>(engine: &E, schedule: Schedule, run: &mut [u8]) -> Result<(), Refusal>
    ensures { Ran schedule run.old (number_in result) run.new }
{
    circuit::check_run(schedule.rounds, run.len())?;
    encrypt_blocks(engine, &GoodSchedule { schedule }, run);
    Ok(())
}
