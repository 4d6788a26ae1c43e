// Calls that `libaria.a` does not export, for the bench of host/ and the tests alone: counter mode under a key, checking an archive,
// opening a job of it, dropping jobs from it, the preview of that, and sealing one, with one number for the answer.
#![tactic(auto)]

ghost use Rattle.std.specs.Prelude.{◌≡◌};
ghost use Rattle.refusals.specs.Cases.{first_of};
ghost use Rattle.admission.specs.Check.{check_cases};
ghost use Rattle.opening.specs.Open.{job_size};
ghost use Rattle.benchlib.specs.Bench.{AppliedUnderKey};
ghost use Rattle.benchlib.specs.Opening.{BenchOpens};
ghost use Rattle.benchlib.specs.Sealing.{BenchSeals};
ghost use Rattle.benchlib.specs.Dropping.{BenchDrops, BenchPreviews};

// Counter mode on a run in place, from byte `first` of the keystream on, the counter blocks being the prefix and an index: 0, or 01's
// refusal 1.
#[unsafe(no_mangle)]
pub extern "C" fn bench_ctr(key: &[u8], prefix: &[u8], first: usize, run: &mut [u8]) -> u32
    ensures { AppliedUnderKey key.now prefix.now first run.old result run.new }
{
    // filled with zero bytes on the right where it is shorter than twelve
    let mut twelve = [0u8; 12];
    octets::copy(prefix, &mut twelve);
    match preparation::prepare(key) {
        Ok(schedule) => {
            ctr::apply_good(schedule, twelve, first, run);
            0
        }
        Err(refusal) => u32::from(refusal),
    }
}

// The whole check of keys and file: 0, or the refusal.
#[unsafe(no_mangle)]
pub extern "C" fn bench_check(key: &[u8], tag_key: &[u8], file: &[u8]) -> u32
    ensures { result ≡ first_of (check_cases key.now tag_key.now file.now) }
{
    match archive::check(key, tag_key, file) {
        Ok(_jobs) => 0,
        Err(unchecked) => u32::from(unchecked),
    }
}

// A whole job into the front of a buffer: 0, or the refusal.
#[unsafe(no_mangle)]
pub extern "C" fn bench_open(
    key: &[u8],
    tag_key: &[u8],
    file: &[u8],
    number: &[u8],
    out: &mut [u8],
) -> u32
    ensures { BenchOpens key.now tag_key.now file.now number.now
        0 (job_size file.now number.now) out.old result out.new }
{
    match opening::open(key, tag_key, file, number, out) {
        Ok(_size) => 0,
        Err(unopened) => u32::from(unopened),
    }
}

// A range of a job into the front of a buffer: 0, or the refusal.
#[unsafe(no_mangle)]
pub extern "C" fn bench_open_range(
    key: &[u8],
    tag_key: &[u8],
    file: &[u8],
    number: &[u8],
    first: usize,
    count: usize,
    out: &mut [u8],
) -> u32
    ensures { BenchOpens key.now tag_key.now file.now number.now first count
        out.old result out.new }
{
    match opening::open_range(key, tag_key, file, number, first, count, out) {
        Ok(_count) => 0,
        Err(unread) => u32::from(unread),
    }
}

// An archive sealed into the front of a buffer: 0, or the refusal.
#[unsafe(no_mangle)]
pub extern "C" fn bench_seal(
    key_file: &[u8],
    tag_key: &[u8],
    sheet: &[u8],
    plain: &[u8],
    out: &mut [u8],
) -> u32
    ensures { BenchSeals key_file.now tag_key.now sheet.now plain.now
        out.old result out.new }
{
    match sealing::seal(key_file, tag_key, sheet, plain, out) {
        Ok(_whole) => 0,
        Err(unsealed) => u32::from(unsealed),
    }
}

// An archive without the jobs of a list, into the front of a buffer: 0, or the refusal.
#[unsafe(no_mangle)]
pub extern "C" fn bench_drop(
    key: &[u8],
    tag_key: &[u8],
    file: &[u8],
    list: &[u8],
    out: &mut [u8],
) -> u32
    ensures { BenchDrops key.now tag_key.now file.now list.now out.old result
        out.new }
{
    match dropping::drop(key, tag_key, file, list, out) {
        Ok(_left) => 0,
        Err(undropped) => u32::from(undropped),
    }
}

// What dropping the jobs of a list would leave: the directory into the front of a buffer, and the three numbers of the answer in one.
#[unsafe(no_mangle)]
pub extern "C" fn bench_preview(
    key: &[u8],
    tag_key: &[u8],
    file: &[u8],
    list: &[u8],
    out: &mut [u8],
) -> usize
    ensures { BenchPreviews key.now tag_key.now file.now list.now out.old result
        out.new }
{
    match dropping::preview(key, tag_key, file, list, out) {
        Ok(seen) => 256 * (seen.count + 256 * seen.length),
        Err(refusal) => u32::from(refusal) as usize,
    }
}
