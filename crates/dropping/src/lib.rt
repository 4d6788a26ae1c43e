// Dropping jobs from an archive, and its preview. All tests come before the first store; then the new archive is written from front to
// back: the header with count and whole length set anew, an entry for each job that is left, their sealed bodies as they are, and the tag
// of what was written. The preview asks the same, but for the room, and writes the entries alone.
#![tactic(auto)]

ghost use Rattle.std.specs.Prelude.{◌≡◌, ◌++◌, ◌*◌, ◌≤◌, ◌<◌, length, drop, IfOk};
ghost use Rattle.refusals.specs.Cases.{first_of};
ghost use Rattle.refusals.specs.Numbers.{number_in, answer_of};
ghost use Rattle.header.specs.Fields.{layout_of, count_of, directory_of};
ghost use Rattle.directory.specs.Entries.{entry_at, number_of};
ghost use Rattle.bodies.specs.Bodies.{body_at};
ghost use Rattle.admission.specs.Check.{IsTagSchedule};
ghost use Rattle.codec.specs.Jobs.{bodies_in};
ghost use Rattle.dropping.specs.Drop.{jobs_left, asked_cases, Drops};
ghost use Rattle.dropping.specs.Preview.{Previews};
ghost use Rattle.dropping.specs.Internal.{
  left_of,
  left_all,
  whole_left,
  header_left,
  entries_left,
  front_left,
  layout_in,
  Whole,
  DropsMarked,
  PreviewsMarked,
};

use circuit::GoodSchedule;
use refusals::Refusal;

// What a preview tells: how many jobs and how many bytes the new archive would have.
#[derive(Clone, Copy, Debug, PartialEq, Eq)]
pub struct Previewed {
    pub count: usize,
    pub length: usize,
}

// An archive that has passed its checks, and which of its entries go: what is left is the rest. A tag key's schedule makes the tag.
#[derive(Clone, Copy)]
struct Left<'a> {
    file: &'a [u8],
    named: [bool; 64],
    tag_schedule: Option<GoodSchedule>,
    ghost whole: { Whole file.now },
    ghost laid: { layout_of file.now ≡ layout_in tag_schedule },
}

impl<'a> Left<'a> {
    // The archive's own checks, then the list's.
    #[tactic(auto, using(crate::proofs::Cases::asked_refused, crate::proofs::Cases::asked_list))]
    fn check(key: &[u8], tag_key: &[u8], file: &'a [u8], list: &[u8]) -> Result<Left<'a>, Refusal>
        ensures number { number_in result ≡ first_of (asked_cases key.now tag_key.now file.now list.now) }
        ensures left { IfOk result (λ left. (left.file.now ≡ file.now)
            × (left_all left.named file.now ≡ jobs_left file.now list.now) × IsTagSchedule tag_key.now left.tag_schedule) }
    {
        let admitted = admission::admit(key, tag_key, file)?;
        let named = joblist::mark(file, list)?;
        let tag_schedule = admitted.tag_schedule;
        Ok(Left {
            file,
            named,
            tag_schedule,
        })
    }

    // Of each entry, whether it goes.
    #[tactic(auto, using(crate::proofs::Entries::left_marks))]
    fn marks(&self) -> &[bool]
        ensures { (length result.now ≡ count_of self.now.file.now) × (length result.now ≤ 64)
            × (left_of result.now self.now.file.now (length result.now) ≡ left_all self.now.named self.now.file.now) }
    {
        &self.named[..header::count(self.file)]
    }

    // How many jobs are left.
    #[tactic(auto, using(crate::proofs::Entries::left_counted))]
    fn count(&self) -> usize
        ensures { (result ≡ length (left_all self.now.named self.now.file.now)) × (result ≤ 64) }
    {
        self.marks().iter().filter(|goes| !**goes).count()
    }

    // How many bytes the body of entry i has.
    #[tactic(auto, using(crate::proofs::Entries::body_within))]
    fn size_at(&self, i: usize) -> usize
        ensures { (result ≡ length (body_at self.now.file.now i)) × (result ≤ 65536) }
    {
        bodies::body_at(self.file, i).len()
    }

    // How many bytes the bodies that are left have.
    #[tactic(auto, using(crate::proofs::Entries::size_none, crate::proofs::Entries::size_same, crate::proofs::Entries::size_next))]
    fn bodies_size(&self) -> usize
        ensures { (result ≡ length (bodies_in (left_all self.now.named self.now.file.now))) × (result ≤ 4194304) }
    {
        let mut size = 0;
        for (i, goes) in self.marks().iter().enumerate() {
            if !*goes {
                size += self.size_at(i);
            }
        }
        size
    }

    // How many bytes the new archive has, its tag included.
    #[tactic(auto, unfolding(codec::specs::Archive::whole_length))]
    fn whole_length(&self) -> usize
        ensures { result ≡ whole_left self.now.named self.now.file.now }
    {
        20 + 16 * self.count() + self.bodies_size() + header::tag_size(self.file)
    }

    // The job number of entry i, in eight bytes.
    #[tactic(auto, using(crate::proofs::Entries::entry_sixteen))]
    fn job_number(&self, i: usize) -> [u8; 8]
        requires { i < count_of self.now.file.now }
        ensures { result ≡ number_of (entry_at (directory_of self.now.file.now) i) }
    {
        let entry = directory::entry(header::directory(self.file), i);
        let mut number = [0u8; 8];
        number.copy_from_slice(&entry[..8]);
        number
    }

    // Writes the directory of the jobs that are left over sixteen bytes a job; the first body starts behind it.
    fn write_directory(&self, run: &mut [u8])
        requires { length run.old ≡ 16 * length (left_all self.now.named self.now.file.now) }
        ensures { run.new ≡ entries_left self.now.named self.now.file.now }
    {
        let mut start = 20 + run.len();
        let mut at = 0;
        for (i, goes) in self.marks().iter().enumerate() {
            if !*goes {
                let size = self.size_at(i);
                let entry = codec::entry(self.job_number(i), start, size);
                run[at..at + 16].copy_from_slice(&entry);
                at += 16;
                start += size;
            }
        }
    }

    // Writes the sealed bodies that are left over as many bytes as they have.
    fn write_bodies(&self, run: &mut [u8])
        requires { length run.old ≡ length (bodies_in (left_all self.now.named self.now.file.now)) }
        ensures { run.new ≡ bodies_in (left_all self.now.named self.now.file.now) }
    {
        let mut at = 0;
        for (i, goes) in self.marks().iter().enumerate() {
            if !*goes {
                let end = at + self.size_at(i);
                octets::copy(bodies::body_at(self.file, i), &mut run[at..end]);
                at = end;
            }
        }
    }

    // The header of an archive of `count` of the file's jobs, of `whole` bytes: the other fields stay.
    #[tactic(auto, using(header::proofs::Accepted::number_length))]
    fn header(&self, count: usize, whole: usize) -> [u8; 20]
        ensures { result ≡ header_left self.now.file.now count whole }
    {
        let file = self.file;
        let mut number = [0u8; 4];
        number.copy_from_slice(header::archive_number(file));
        let mut check = [0u8; 8];
        check.copy_from_slice(&file[8..16]);
        codec::header(file[0], file[1], count, number, check, whole)
    }

    // Writes all but the tag of the new archive, of `whole` bytes, at the front of a buffer that has room, and answers where it ends.
    #[tactic(auto, unfolding(codec::specs::Archive::whole_length))]
    fn write_front(&self, whole: usize, out: &mut [u8]) -> usize
        requires { (whole ≡ whole_left self.now.named self.now.file.now) × (whole ≤ length out.old) }
        ensures { (result ≡ length (front_left self.now.named self.now.file.now))
            × (out.new ≡ front_left self.now.named self.now.file.now ++ drop result out.old) }
    {
        let count = self.count();
        let from = 20 + 16 * count;
        let end = whole - header::tag_size(self.file);
        out[..20].copy_from_slice(&self.header(count, whole));
        self.write_directory(&mut out[20..from]);
        self.write_bodies(&mut out[from..end]);
        end
    }

    // Writes the new archive at the front of a buffer, if it has room for it, and answers how many bytes it has.
    fn write(&self, out: &mut [u8]) -> Result<usize, Refusal>
        ensures { DropsMarked self.now.tag_schedule self.now.named self.now.file.now out.old (answer_of result) out.new }
    {
        let whole = self.whole_length();
        if out.len() < whole {
            return Err(Refusal::BufferTooShort);
        }
        let end = self.write_front(whole, out);
        let Some(tag_schedule) = self.tag_schedule else {
            return Ok(end);
        };
        let tag = cmac::tag_good(tag_schedule, &out[..end]);
        out[end..end + 16].copy_from_slice(&tag);
        Ok(end + 16)
    }

    // Writes the directory of the new archive at the front of a buffer, if it has room for it, and tells count and whole length.
    #[tactic(auto, using(crate::proofs::Previewing::marked_short))]
    fn preview(&self, out: &mut [u8]) -> Result<Previewed, Refusal>
        ensures { PreviewsMarked self.now.named self.now.file.now out.old result out.new }
    {
        let count = self.count();
        if out.len() < 16 * count {
            return Err(Refusal::BufferTooShort);
        }
        self.write_directory(&mut out[..16 * count]);
        let length = self.whole_length();
        Ok(Previewed { count, length })
    }
}

// Drops the jobs of a list from an archive: writes the archive without them at the front of a buffer, and answers how many bytes it has.
pub fn drop(
    key: &[u8],
    tag_key: &[u8],
    file: &[u8],
    list: &[u8],
    out: &mut [u8],
) -> Result<usize, Refusal>
    ensures { Drops key.now tag_key.now file.now list.now out.old
        (answer_of result) out.new }
{
    let left = Left::check(key, tag_key, file, list)?;
    left.write(out)
}

// What dropping the jobs of a list would leave: count and whole length of the new archive, and its directory (01's contents) at the front
// of a buffer. No archive is written.
#[tactic(auto, using(crate::proofs::Previewing::preview_refused))]
pub fn preview(
    key: &[u8],
    tag_key: &[u8],
    file: &[u8],
    list: &[u8],
    out: &mut [u8],
) -> Result<Previewed, Refusal>
    ensures { Previews key.now tag_key.now file.now list.now out.old result
        out.new }
{
    let left = Left::check(key, tag_key, file, list)?;
    left.preview(out)
}
