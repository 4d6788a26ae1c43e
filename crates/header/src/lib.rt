// The header of an archive: its fields, its checks, and where directory, bodies and tag lie by it. Every call is total.
#![tactic(auto)]

ghost use Rattle.std.specs.Prelude.{◌≡◌, ◌+◌, ◌<◌, ◌≤◌};
ghost use Rattle.refusals.specs.Cases.{first_of};
ghost use Rattle.refusals.specs.Numbers.{number_in};
ghost use Rattle.header.specs.Fields.{layout_of, is_layout, tag_size, count_of, NumberPart, directory_end, DirectoryPart, bodies_end};
ghost use Rattle.header.specs.Cases.{front_cases, field_cases, header_cases};

use octets::{byte_at, part, same, u16_at, u32_at};
use refusals::Refusal;

// The count of jobs.
#[tactic(auto, unfolding(crate::specs::Fields::count_of))]
pub fn count(file: &[u8]) -> usize
    ensures { (result ≡ count_of file.now) × (result < 65536) }
{
    u16_at(file, 2)
}

// The archive number, a part of the file.
#[tactic(auto, unfolding(crate::specs::Fields::archive_number))]
pub fn archive_number(file: &[u8]) -> &[u8]
    ensures { NumberPart file.entry result }
{
    part(file, 4, 4)
}

// Where the directory ends and the first body has to start.
pub fn directory_end(file: &[u8]) -> usize
    ensures { result ≡ directory_end file.now }
{
    20 + 16 * count(file)
}

// The directory, a part of the file; cut off where the file is.
pub fn directory(file: &[u8]) -> &[u8]
    ensures { DirectoryPart file.entry result }
{
    part(file, 20, 16 * count(file))
}

// How many bytes the tag has, by the layout.
#[tactic(auto, unfolding(crate::specs::Fields::tag_size))]
pub fn tag_size(file: &[u8]) -> usize
    ensures { (result ≡ tag_size (layout_of file.now)) × (result ≤ 16) }
{
    match byte_at(file, 0) {
        2 => 16,
        _ => 0,
    }
}

// Where the bodies have to end: at the tag, or at the file's end where there is none.
pub fn bodies_end(file: &[u8]) -> usize
    ensures { result ≡ bodies_end file.now }
{
    file.len().saturating_sub(tag_size(file))
}

#[tactic(auto, unfolding(crate::specs::Fields::is_layout))]
fn is_layout(n: usize) -> bool
    ensures { result ≡ is_layout n }
{
    matches!(n, 1 | 2)
}

// The file's length and its layout, which has to be `layout`.
#[tactic(auto, unfolding(refusals::specs::Cases::first_of, crate::specs::Cases::front_cases))]
fn check_front(layout: usize, file: &[u8]) -> Result<(), Refusal>
    ensures { number_in result ≡ first_of (front_cases layout file.now) }
{
    if file.len() < 20 {
        return Err(Refusal::FileTooShort);
    }
    if 65536 < file.len() {
        return Err(Refusal::FileTooLong);
    }
    let stated = byte_at(file, 0);
    if !is_layout(stated) {
        return Err(Refusal::UnknownLayout);
    }
    if stated != layout {
        return Err(Refusal::OtherLayout);
    }
    Ok(())
}

// How long a file of this layout and count is at least: header, directory and tag.
fn least_length(file: &[u8]) -> usize
    ensures { result ≡ directory_end file.now + tag_size (layout_of file.now) }
{
    20 + 16 * count(file) + tag_size(file)
}

// The other fields.
#[tactic(auto, unfolding(refusals::specs::Cases::first_of, crate::specs::Cases::field_cases))]
fn check_fields(keysize: usize, check: [u8; 8], file: &[u8]) -> Result<(), Refusal>
    ensures { number_in result ≡ first_of (field_cases keysize check file.now) }
{
    if byte_at(file, 1) != keysize {
        return Err(Refusal::OtherKeySize);
    }
    if 64 < count(file) {
        return Err(Refusal::JobCount);
    }
    if u32_at(file, 16) != file.len() {
        return Err(Refusal::StatedLength);
    }
    if file.len() < least_length(file) {
        return Err(Refusal::NoRoom);
    }
    if !same(part(file, 8, 8), &check) {
        return Err(Refusal::KeyCheck);
    }
    Ok(())
}

// Checks the header of a file that has to be of `layout`, under a key of `keysize` bytes whose key check is `check`.
#[tactic(auto, using(crate::proofs::Cases::in_stages), unfolding(crate::specs::Cases::header_cases))]
pub fn check(layout: usize, keysize: usize, check: [u8; 8], file: &[u8]) -> Result<(), Refusal>
    ensures { number_in result ≡ first_of (header_cases layout keysize check file.now) }
{
    check_front(layout, file)?;
    check_fields(keysize, check, file)
}
