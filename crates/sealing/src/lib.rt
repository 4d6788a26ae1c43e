// Sealing jobs into an archive: a sheet and plain bodies, under a key and a tag key. All tests come before the first store; then the
// archive is written from front to back, its bodies encrypted in place.
#![tactic(auto)]

ghost use Rattle.std.specs.Prelude.{◌≡◌, true, ◌++◌, ◌+◌, ◌*◌, ◌≤◌, ◌<◌, length, drop, IfOk};
ghost use Rattle.refusals.specs.Cases.{first_of};
ghost use Rattle.refusals.specs.Numbers.{number_in, answer_of};
ghost use Rattle.refusals.specs.Shared.{good_key, tag_key_cases};
ghost use Rattle.expansion.specs.KeySchedule.{schedule_of};
ghost use Rattle.header.specs.Fields.{tag_size};
ghost use Rattle.sheet.specs.Sheet.{key_size_on, archive_number_on, lines, job_number_on, sizes_on};
ghost use Rattle.sheet.specs.Cases.{sheet_cases};
ghost use Rattle.sealing.specs.Seal.{key_on, length_on, key_file_cases, length_cases, rest_cases, Seals};
ghost use Rattle.sealing.specs.Internal.{header_on, directory_on, bodies_on, front_on, layout_in, tag_in, TagOf, SealsRest};

use circuit::GoodSchedule;
use refusals::Refusal;

// A sheet whose length and first byte nothing refuses.
#[derive(Clone, Copy)]
struct GoodSheet<'a> {
    sheet: &'a [u8],
    ghost headed: { 5 ≤ length sheet.now },
    ghost sized: { good_key (key_size_on sheet.now) ≡ true },
}

impl<'a> GoodSheet<'a> {
    fn check(sheet: &'a [u8]) -> Result<GoodSheet<'a>, Refusal>
        ensures number { number_in result ≡ first_of (sheet_cases sheet.now) }
        ensures same { IfOk result (λ good. good.sheet.now ≡ sheet.now) }
    {
        sheet::check(sheet)?;
        Ok(GoodSheet { sheet })
    }

    // The schedule of the key, which is the front of a key file: as many bytes as the sheet says.
    fn schedule(&self, key_file: &[u8]) -> Result<GoodSchedule, Refusal>
        ensures number { number_in result ≡ first_of (key_file_cases (length key_file.now) (key_size_on self.now.sheet.now)) }
        ensures same { IfOk result (λ good. good.schedule ≡ schedule_of (key_on key_file.now self.now.sheet.now)) }
    {
        let size = sheet::key_size(self.sheet);
        let key = key_file.get(..size).ok_or(Refusal::KeyLength)?;
        preparation::prepare(key)
    }
}

// The schedule of a tag key; none of one of 0 bytes, which means that there is none.
fn prepare_tag_key(tag_key: &[u8]) -> Result<Option<GoodSchedule>, Refusal>
    ensures number { number_in result ≡ first_of (tag_key_cases (length tag_key.now)) }
    ensures made { IfOk result (λ tag_schedule. TagOf tag_key.now tag_schedule) }
{
    if tag_key.is_empty() {
        return Ok(None);
    }
    let tag_schedule = preparation::prepare(tag_key)?;
    Ok(Some(tag_schedule))
}

// The layout of an archive, 2 where there is a tag key.
fn layout(tag_schedule: Option<GoodSchedule>) -> u8
    ensures { result ≡ layout_in tag_schedule }
{
    match tag_schedule {
        None => 1,
        Some(_) => 2,
    }
}

// How many bytes the tag of a layout has: `header::tag_size` asks a file, and here there is none yet.
#[tactic(auto, unfolding(header::specs::Fields::tag_size))]
fn tag_size(layout: u8) -> usize
    ensures { (result ≡ tag_size layout) × (result ≤ 16) }
{
    match layout {
        2 => 16,
        _ => 0,
    }
}

// Whether an archive of `whole` bytes whose bodies have `size` may be written, with `given` plain bytes and a buffer of `room`.
#[tactic(auto, unfolding(crate::specs::Seal::length_cases, refusals::specs::Cases::first_of))]
fn check_length(whole: usize, size: usize, given: usize, room: usize) -> Result<(), Refusal>
    ensures { number_in result ≡ first_of (length_cases whole size given room) }
{
    if 65536 < whole {
        return Err(Refusal::FileTooLong);
    }
    if given < size {
        return Err(Refusal::BodyEnd);
    }
    if size < given {
        return Err(Refusal::BytesLeft);
    }
    if room < whole {
        return Err(Refusal::BufferTooShort);
    }
    Ok(())
}

// What goes into an archive of `whole` bytes: its layout, a sheet that nothing refuses, and the plain bytes of the sheet's bodies, end to
// end.
#[derive(Clone, Copy)]
struct Draft<'a> {
    layout: u8,
    whole: usize,
    sheet: &'a [u8],
    plain: &'a [u8],
    ghost stated: { whole ≡ length_on layout sheet.now },
    ghost headed: { 5 ≤ length sheet.now },
    ghost few: { lines sheet.now ≤ 64 },
    ghost exact: { sizes_on sheet.now (lines sheet.now) ≡ length plain.now },
    ghost small: { length plain.now ≤ 65536 },
}

impl<'a> Draft<'a> {
    // Drafts an archive for a buffer of `room` bytes.
    fn check(
        layout: u8,
        good: GoodSheet<'a>,
        plain: &'a [u8],
        room: usize,
    ) -> Result<Draft<'a>, Refusal>
        ensures number { number_in result ≡ first_of (rest_cases layout good.entry.sheet.now (length plain.now) room) }
        ensures same { IfOk result (λ draft.
            (draft.layout ≡ layout) × (draft.sheet.now ≡ good.entry.sheet.now) × (draft.plain.now ≡ plain.now)) }
    {
        let sheet = good.sheet;
        sheet::check_lines(sheet)?;
        let count = sheet::lines(sheet);
        let size = sheet::sizes(sheet, count as u8);
        let whole = 20 + 16 * count + size + tag_size(layout);
        check_length(whole, size, plain.len(), room)?;
        Ok(Draft {
            layout,
            whole,
            sheet,
            plain,
        })
    }

    // The archive number, in four bytes.
    #[tactic(auto, using(sheet::proofs::LineLaws::number_length))]
    fn archive_number(&self) -> [u8; 4]
        ensures { result ≡ archive_number_on self.now.sheet.now }
    {
        let mut number = [0u8; 4];
        number.copy_from_slice(sheet::archive_number(self.sheet));
        number
    }

    // The job number on line i, in eight bytes.
    #[tactic(auto, using(sheet::proofs::LineLaws::line_length))]
    fn job_number(&self, i: usize) -> [u8; 8]
        requires { i < lines self.now.sheet.now }
        ensures { result ≡ job_number_on self.now.sheet.now i }
    {
        let mut number = [0u8; 8];
        number.copy_from_slice(&sheet::line(self.sheet, i)[..8]);
        number
    }

    // Writes the header over twenty bytes.
    fn write_header(&self, schedule: GoodSchedule, run: &mut [u8])
        requires { length run.old ≡ 20 }
        ensures { run.new ≡ header_on self.now.layout schedule.schedule self.now.sheet.now }
    {
        let header = codec::header(
            self.layout,
            sheet::key_size(self.sheet) as u8,
            sheet::lines(self.sheet),
            self.archive_number(),
            admission::key_check(schedule),
            self.whole,
        );
        run.copy_from_slice(&header);
    }

    // Writes the directory over sixteen bytes a line; the first body starts behind it.
    fn write_directory(&self, run: &mut [u8])
        requires { length run.old ≡ 16 * lines self.now.sheet.now }
        ensures { run.new ≡ directory_on self.now.sheet.now (20 + 16 * lines self.now.sheet.now) }
    {
        let count = sheet::lines(self.sheet);
        let mut start = 20 + 16 * count;
        for i in 0..count {
            let size = sheet::size(self.sheet, i);
            let entry = codec::entry(self.job_number(i), start, size);
            run[16 * i..16 * i + 16].copy_from_slice(&entry);
            start += size;
        }
    }

    // Writes the bodies over as many bytes as the plain ones have, each under the keystream of its job.
    fn write_bodies(&self, schedule: GoodSchedule, run: &mut [u8])
        requires { length run.old ≡ length self.now.plain.now }
        ensures { run.new ≡ bodies_on schedule.schedule self.now.sheet.now self.now.plain.now }
    {
        octets::copy(self.plain, run);
        let archive = self.archive_number();
        let mut at = 0;
        for i in 0..sheet::lines(self.sheet) {
            let end = at + sheet::size(self.sheet, i);
            let prefix = opening::prefix(archive, self.job_number(i));
            ctr::apply_good(schedule, prefix, 0, &mut run[at..end]);
            at = end;
        }
    }

    // Writes all but the tag at the front of a buffer that has room for it, and answers where it ends.
    fn write_front(&self, schedule: GoodSchedule, out: &mut [u8]) -> usize
        requires { 20 + 16 * lines self.now.sheet.now + length self.now.plain.now ≤ length out.old }
        ensures { (result ≡ length (front_on self.now.layout schedule.schedule self.now.sheet.now self.now.plain.now))
            × (out.new ≡ front_on self.now.layout schedule.schedule self.now.sheet.now self.now.plain.now ++ drop result out.old) }
    {
        let from = 20 + 16 * sheet::lines(self.sheet);
        let end = from + self.plain.len();
        self.write_header(schedule, &mut out[..20]);
        self.write_directory(&mut out[20..from]);
        self.write_bodies(schedule, &mut out[from..end]);
        end
    }
}

// Seals under the schedule of a key and, where there is one, of a tag key, which makes the tag of all that was written.
fn seal_under(
    schedule: GoodSchedule,
    tag_schedule: Option<GoodSchedule>,
    sheet: GoodSheet,
    plain: &[u8],
    out: &mut [u8],
) -> Result<usize, Refusal>
    ensures { SealsRest (layout_in tag_schedule) (tag_in tag_schedule) schedule.schedule sheet.entry.sheet.now plain.now out.old
        (answer_of result) out.new }
{
    let draft = Draft::check(layout(tag_schedule), sheet, plain, out.len())?;
    let end = draft.write_front(schedule, out);
    match tag_schedule {
        None => Ok(end),
        Some(tag_schedule) => {
            let tag = cmac::tag_good(tag_schedule, &out[..end]);
            out[end..end + 16].copy_from_slice(&tag);
            Ok(end + 16)
        }
    }
}

// Seals the jobs of a sheet into an archive at the front of a buffer, and answers how many bytes it has.
pub fn seal(
    key_file: &[u8],
    tag_key: &[u8],
    sheet: &[u8],
    plain: &[u8],
    out: &mut [u8],
) -> Result<usize, Refusal>
    ensures { Seals key_file.now tag_key.now sheet.now plain.now out.old
        (answer_of result) out.new }
{
    let sheet = GoodSheet::check(sheet)?;
    let schedule = sheet.schedule(key_file)?;
    let tag_schedule = prepare_tag_key(tag_key)?;
    seal_under(schedule, tag_schedule, sheet, plain, out)
}
