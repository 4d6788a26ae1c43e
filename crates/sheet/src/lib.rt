// The job sheet, as bare bytes: its fields, its lines and their checks. Every call is total.
#![tactic(auto)]

ghost use Rattle.std.specs.Prelude.{◌≡◌, ◌<◌};
ghost use Rattle.refusals.specs.Cases.{first_of};
ghost use Rattle.refusals.specs.Numbers.{number_in};
ghost use Rattle.jobnumber.specs.Number.{order_of};
ghost use Rattle.jobnumber.specs.Ascending.{ascends_in};
ghost use Rattle.sheet.specs.Sheet.{key_size_on, NumberPart, lines, line_at, LinePart, size_on, sizes_on};
ghost use Rattle.sheet.specs.Long.{handed_on};
ghost use Rattle.sheet.specs.Cases.{is_length, is_key_length, sheet_cases, line_cases, lines_cases};

use jobnumber::{all_digits, order_of};
use octets::{byte_at, part, u32_at};
use refusals::Refusal;

// How many bytes the key has: as many as the first byte says, 32 where it is 0.
#[tactic(auto, unfolding(crate::specs::Sheet::key_size_of))]
pub fn key_size(sheet: &[u8]) -> usize
    ensures { (result ≡ key_size_on sheet.now) × (result < 256) }
{
    match byte_at(sheet, 0) {
        0 => 32,
        n => n,
    }
}

// The archive number, a part of the sheet.
pub fn archive_number(sheet: &[u8]) -> &[u8]
    ensures { NumberPart sheet.entry result }
{
    part(sheet, 1, 4)
}

// How many whole lines there are.
pub fn lines(sheet: &[u8]) -> usize
    ensures { result ≡ lines sheet.now }
{
    sheet.len().saturating_sub(5) / 12
}

// Line i, a part of the sheet; empty where there are not so many.
pub fn line(sheet: &[u8], i: usize) -> &[u8]
    ensures { LinePart sheet.entry i result }
{
    if i < lines(sheet) {
        part(sheet, 5 + 12 * i, 12)
    } else {
        part(sheet, 0, 0)
    }
}

// The length of the body on line i.
pub fn size(sheet: &[u8], i: usize) -> usize
    ensures { (result ≡ size_on sheet.now i) × (result < 4294967296) }
{
    u32_at(line(sheet, i), 8)
}

// The lengths on the first n lines in all: of at most 255 lines, so that the sum always fits.
#[tactic(auto, using(crate::proofs::LineLaws::sizes_next), unfolding(crate::specs::Sheet::sizes_on))]
pub fn sizes(sheet: &[u8], n: u8) -> usize
    ensures { (result ≡ sizes_on sheet.now n) × (result < 1099511627776) }
{
    let mut sum = 0;
    for i in 0..n as usize {
        sum += size(sheet, i);
    }
    sum
}

// Whether a sheet may have n bytes: 5 plus a multiple of 12.
#[tactic(auto, unfolding(crate::specs::Cases::is_length))]
fn is_length(n: usize) -> bool
    ensures { result ≡ is_length n }
{
    5 <= n && (n - 5) % 12 == 0
}

// What a sheet's first byte may be.
#[tactic(auto, unfolding(refusals::specs::Shared::good_key, crate::specs::Cases::is_key_length))]
fn is_key_length(n: usize) -> bool
    ensures { result ≡ is_key_length n }
{
    matches!(n, 0 | 16 | 24 | 32)
}

// Checks the sheet's length and its first byte.
#[tactic(auto, unfolding(refusals::specs::Cases::first_of, crate::specs::Cases::sheet_cases))]
pub fn check(sheet: &[u8]) -> Result<(), Refusal>
    ensures { number_in result ≡ first_of (sheet_cases sheet.now) }
{
    if !is_length(sheet.len()) {
        return Err(Refusal::SheetLength);
    }
    if !is_key_length(byte_at(sheet, 0)) {
        return Err(Refusal::SheetKeyLength);
    }
    Ok(())
}

// Whether the job number on line i is above that on the line before it.
#[tactic(auto, unfolding(jobnumber::specs::Ascending::ascends_in))]
fn ascends(sheet: &[u8], i: usize) -> bool
    ensures { result ≡ ascends_in order_of (line_at sheet.now) i }
{
    i == 0 || order_of(line(sheet, i - 1)) < order_of(line(sheet, i))
}

#[tactic(auto, unfolding(refusals::specs::Cases::first_of, crate::specs::Cases::line_cases))]
fn check_line(sheet: &[u8], i: usize) -> Result<(), Refusal>
    ensures { number_in result ≡ first_of (line_cases sheet.now i) }
{
    if !all_digits(line(sheet, i)) {
        return Err(Refusal::NotDigits);
    }
    if !ascends(sheet, i) {
        return Err(Refusal::NotAscending);
    }
    Ok(())
}

// Checks the number of lines, and then line by line.
#[tactic(auto, using(crate::proofs::Cases::too_many))]
pub fn check_lines(sheet: &[u8]) -> Result<(), Refusal>
    ensures { number_in result ≡ first_of (lines_cases sheet.now) }
{
    let count = lines(sheet);
    if 64 < count {
        return Err(Refusal::JobCount);
    }
    for i in 0..count {
        check_line(sheet, i)?;
    }
    Ok(())
}

// How many bytes of a sheet `seal` hands on, of which it has read the first `length`, 796 at most, and knows how many are beyond, by the
// remainder modulo 12: all, or of a longer one so many that `seal` answers as on the whole.
#[tactic(auto, unfolding(crate::specs::Long::handed_on))]
pub fn handed_on(length: usize, beyond: usize) -> usize
    ensures { result ≡ handed_on length beyond }
{
    if length < 796 {
        length
    } else {
        785 + (11 + beyond % 12) % 12
    }
}
