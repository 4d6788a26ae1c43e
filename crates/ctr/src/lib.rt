// Counter mode (SP 800-38A, section 6.5) under a key schedule: each byte of a run xor the keystream byte of its place, from any first byte
// on. The keystream is the counter blocks in a row, each encrypted.
#![tactic(auto)]

ghost use Rattle.std.specs.Prelude.{◌≡◌, ◌+◌, ◌*◌, ◌/◌, ◌%◌, ◌≤◌, length, replicate};
ghost use Rattle.refusals.specs.Numbers.{number_in};
ghost use Rattle.blocks.specs.Runs.{each_block};
ghost use Rattle.circuit.specs.Run.{encrypted};
ghost use Rattle.ctr.specs.Internal.{counter_blocks};
ghost use Rattle.ctr.specs.Counter.{counter_block, keystream, add_stream, Applied};

use circuit::{GoodSchedule, Schedule};
use refusals::Refusal;

// Counter block `index`; four bytes of the index, so modulo 2^32.
fn counter_block(prefix: [u8; 12], index: usize) -> [u8; 16]
    ensures { result ≡ counter_block prefix index }
{
    let mut out = blocks::load(&prefix);
    octets::put(&mut out, 12, &octets::in_four(index));
    out
}

// Fills whole blocks with the counter blocks from `block` on, an index of at most 2^61, so that adding to it does not overflow.
fn counter_blocks(prefix: [u8; 12], block: usize, run: &mut [u8])
    requires { (block ≤ 2305843009213693952) × (length run.old % 16 ≡ 0) }
    ensures { run.new ≡ counter_blocks prefix block (length run.old / 16) }
{
    for i in 0..run.len() / 16 {
        let at = 16 * i;
        blocks::store(counter_block(prefix, block + i), &mut run[at..at + 16]);
    }
}

// Zero bytes: room for the blocks of a chunk.
fn room() -> [u8; 4096]
    ensures { result ≡ replicate 4096 0 }
{
    [0u8; 4096]
}

// What a keystream is made from.
#[derive(Clone, Copy)]
struct Keystream {
    schedule: GoodSchedule,
    prefix: [u8; 12],
}

impl Keystream {
    // Fills whole blocks with the keystream from counter block `block` on.
    fn fill(self, block: usize, run: &mut [u8])
        requires { (block ≤ 2305843009213693952) × (length run.old % 16 ≡ 0) }
        ensures { run.new ≡ each_block (encrypted self.schedule.schedule) (counter_blocks self.prefix block (length run.old / 16)) }
    {
        counter_blocks(self.prefix, block, run);
        tables::run(self.schedule.schedule, run).unwrap();
    }

    // Adds the keystream to a part that begins at byte `offset` of block `block` and ends within 4 KiB of that block's start. Only the
    // blocks up to the part's end are encrypted.
    fn add_chunk(self, block: usize, offset: usize, part: &mut [u8])
        requires { (block ≤ 2305843009213693952) × (offset + length part.old ≤ 4096) }
        ensures { part.new ≡ add_stream (keystream self.schedule.schedule self.prefix) (16 * block + offset) part.old }
    {
        let end = offset + part.len();
        let size = end.div_ceil(16) * 16;
        let mut chunk = room();
        self.fill(block, &mut chunk[0..size]);
        blocks::add(&chunk[offset..end], part);
    }

    // Adds the keystream from byte `first` on to a run, by chunks of at most 256 blocks: each run of the cipher makes its tables anew, so
    // that a run for each block would be slow. The first chunk is shorter where `first` lies within a block, so that the others begin with
    // one, and none is made twice; an empty run has no chunk. A chunk's place is a block and an offset, since `first` plus the run's length
    // need not fit a usize.
    fn add(self, first: usize, run: &mut [u8])
        ensures { run.new ≡ add_stream (keystream self.schedule.schedule self.prefix) first run.old }
    {
        let all = run.len();
        let offset = first % 16;
        for i in 0..(all + offset.min(all)).div_ceil(4096) {
            let at = (4096 * i).saturating_sub(offset);
            let end = all.min(4096 * (i + 1) - offset);
            self.add_chunk(
                first / 16 + 256 * i,
                offset.saturating_sub(4096 * i),
                &mut run[at..end],
            );
        }
    }
}

// Counter mode in place; encryption and decryption are the one operation. The run is what stands from byte `first` on in something longer,
// or all of it, with 0. Only the keystream blocks that it touches are made; they repeat after 2^36 bytes.
pub fn apply_good(schedule: GoodSchedule, prefix: [u8; 12], first: usize, run: &mut [u8])
    ensures stream { run.new ≡ add_stream (keystream schedule.schedule prefix) first run.old }
    ensures applied { Applied schedule.schedule prefix first run.old 0 run.new }
{
    let stream = Keystream { schedule, prefix };
    stream.add(first, run);
}

// The same under any schedule: refusal 3 for a bad one, which leaves the run as it was.
#[tactic(auto, using(crate::proofs::Applied::applied_none, refusals::proofs::Numbers::number_some))]
pub fn apply(
    schedule: Schedule,
    prefix: [u8; 12],
    first: usize,
    run: &mut [u8],
) -> Result<(), Refusal>
    ensures { Applied schedule prefix first run.old (number_in result) run.new }
{
    let good = GoodSchedule::try_from(schedule)?;
    apply_good(good, prefix, first, run);
    Ok(())
}
