// Opening a job of an archive: a range of it or the whole. Each call begins with the whole check of keys and file, which prepares each key
// once; then only the blocks of the keystream are made that the range touches.
#![tactic(auto)]

ghost use Rattle.std.specs.Prelude.{◌≡◌, ◌+◌, ◌≤◌, ltb, length};
ghost use Rattle.refusals.specs.Numbers.{answer_of};
ghost use Rattle.opening.specs.Open.{prefix_of, job_size, Opens};
ghost use Rattle.opening.specs.Internal.{OpensBody, FindsJob};

use circuit::GoodSchedule;
use refusals::Refusal;

// The first twelve bytes of a job's counter blocks.
pub fn prefix(archive: [u8; 4], number: [u8; 8]) -> [u8; 12]
    ensures { result ≡ prefix_of archive number }
{
    let mut bytes = [0u8; 12];
    bytes[0..4].copy_from_slice(&archive);
    bytes[4..12].copy_from_slice(&number);
    bytes
}

// Case 26, for a job of `size` bytes. The sum of `first` and `count` need not fit a usize, so it is not made.
fn passes_end(size: usize, first: usize, count: usize) -> bool
    ensures { result ≡ ltb size (first + count) }
{
    match size.checked_sub(first) {
        Some(rest) => rest < count,
        None => true,
    }
}

// A job's sealed body, and what its keystream is made from.
#[derive(Clone, Copy)]
struct Job<'a> {
    schedule: GoodSchedule,
    prefix: [u8; 12],
    body: &'a [u8],
}

impl<'a> Job<'a> {
    // Writes a range of the plain bytes to the front of a buffer.
    fn open(self, first: usize, count: usize, out: &mut [u8]) -> Result<usize, Refusal>
        ensures { OpensBody self.entry.schedule.schedule self.entry.prefix self.entry.body.now first count out.old (answer_of result)
            out.new }
    {
        if passes_end(self.body.len(), first, count) {
            return Err(Refusal::RangeEnd);
        }
        if out.len() < count {
            return Err(Refusal::BufferTooShort);
        }
        let plain = &mut out[0..count];
        octets::copy(&self.body[first..first + count], plain);
        ctr::apply_good(self.schedule, self.prefix, first, plain);
        Ok(count)
    }
}

// The job of a number, in a file that passed its checks.
fn find_job<'a>(schedule: GoodSchedule, file: &'a [u8], number: &[u8]) -> Result<Job<'a>, Refusal>
    requires { 20 ≤ length file.now }
    ensures { FindsJob schedule.schedule file.now number.now result }
{
    let i = bodies::lookup(file, number)?;
    let archive = header::archive_number(file).try_into().unwrap();
    Ok(Job {
        schedule,
        prefix: prefix(archive, number.try_into().unwrap()),
        body: bodies::body_at(file, i),
    })
}

// Opens a range of a job: `count` plain bytes from byte `first` on, at the front of a buffer. Answers how many were written.
pub fn open_range(
    key: &[u8],
    tag_key: &[u8],
    file: &[u8],
    number: &[u8],
    first: usize,
    count: usize,
    out: &mut [u8],
) -> Result<usize, Refusal>
    ensures { Opens key.now tag_key.now file.now number.now first count
        out.old (answer_of result) out.new }
{
    let admitted = admission::admit(key, tag_key, file)?;
    let job = find_job(admitted.schedule, file, number)?;
    job.open(first, count, out)
}

// Opens a whole job: the range of all its bytes.
pub fn open(
    key: &[u8],
    tag_key: &[u8],
    file: &[u8],
    number: &[u8],
    out: &mut [u8],
) -> Result<usize, Refusal>
    ensures { Opens key.now tag_key.now file.now number.now
        0 (job_size file.now number.now) out.old (answer_of result) out.new }
{
    let admitted = admission::admit(key, tag_key, file)?;
    let job = find_job(admitted.schedule, file, number)?;
    job.open(0, job.body.len(), out)
}
