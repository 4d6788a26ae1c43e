// The text that the program `jobs` prints, of an archive, of a refusal, and of a directory by itself.
#![tactic(auto)]

ghost use Rattle.std.specs.Prelude.{◌≡◌, [], ◌∷◌, ◌+◌, ◌%◌, take};
ghost use Rattle.refusals.specs.Answers.{gives};
ghost use Rattle.directory.specs.Entries.{entries};
ghost use Rattle.decimal.specs.Decimal.{decimal_digits};
ghost use Rattle.listing.specs.Text.{
  refused_word,
  newline,
  field,
  number_line,
  job_line,
  job_lines,
  text_of,
  is_short,
  is_printable,
  directory_text,
};
ghost use Rattle.listing.specs.Listing.{listing_text, Holds};
ghost use Rattle.listing.specs.Internal.{Printable, Puts};

use arrayvec::ArrayVec;
use octets::{part, u32_at};

// A text at the front of a buffer, with zeros behind it: room for a first line of 8 bytes and 64 lines of 21, and no listing is longer.
#[derive(Clone, Copy)]
pub struct Listing {
    pub length: usize,
    pub text: [u8; 1352],
}

impl Listing {
    // The listing of bytes; of more than it has room for, of the first.
    pub fn of(bytes: &[u8]) -> Listing
        ensures { Holds (take 1352 bytes.now) result }
    {
        let front = part(bytes, 0, 1352);
        let mut text = [0u8; 1352];
        octets::copy(front, &mut text);
        Listing {
            length: front.len(),
            text,
        }
    }

    // The text without the zeros behind it.
    pub fn bytes(&self) -> &[u8]
        ensures { result.now ≡ take self.now.length self.now.text }
    {
        part(&self.text, 0, self.length)
    }
}

// A text while it is made. An `ArrayVec` cannot be copied, and a listing can.
type Text = ArrayVec<u8, 1352>;

// Puts bytes behind a text that has room for them, as each function does that puts something.
fn put(text: &mut Text, bytes: &[u8])
    ensures { Puts text.old bytes.now text.new }
{
    let _ = text.try_extend_from_slice(bytes);
}

// Puts the end of an entry's line.
fn end_entry(text: &mut Text)
    ensures { Puts text.old newline text.new }
{
    put(text, &[b'\n']);
}

// Puts the last digit of a number.
fn put_digit(text: &mut Text, n: usize)
    ensures { Puts text.old ((48 + n % 10) ∷ []) text.new }
{
    put(text, &[b'0' + (n % 10) as u8]);
}

// Puts a number in decimal: all but the last digit, then the last.
#[tactic(auto, using(crate::proofs::Puts::digit_by_digit))]
fn put_decimal(text: &mut Text, n: usize)
    ensures { Puts text.old (decimal_digits n) text.new }
{
    if n >= 10 {
        put_decimal(text, n / 10);
    }
    put_digit(text, n);
}

// Puts a space and a number.
#[tactic(auto, using(crate::proofs::Puts::puts_then), unfolding(crate::specs::Text::field))]
fn put_field(text: &mut Text, n: usize)
    ensures { Puts text.old (field n) text.new }
{
    put(text, b" ");
    put_decimal(text, n);
}

// Puts a line of a word and a number.
#[tactic(auto, using(crate::proofs::Puts::puts_then), unfolding(crate::specs::Text::number_line))]
fn put_line(text: &mut Text, word: &[u8], n: usize)
    ensures { Puts text.old (number_line word.now n) text.new }
{
    put(text, word);
    put_decimal(text, n);
    put(text, b"\n");
}

// Puts the line of an entry.
#[tactic(auto, using(crate::proofs::Puts::puts_then), unfolding(crate::specs::Text::job_line))]
fn put_entry(text: &mut Text, e: &[u8])
    ensures { Puts text.old (job_line e.now) text.new }
{
    put(text, part(e, 0, 8));
    put_field(text, u32_at(e, 8));
    put_field(text, u32_at(e, 12));
    end_entry(text);
}

// Puts the lines of all entries.
#[tactic(auto, using(crate::proofs::Puts::by_entries), unfolding(crate::specs::Text::job_lines, blocks::specs::Blocks::row))]
fn put_entries(text: &mut Text, directory: &[u8])
    ensures { Puts text.old (job_lines directory.now (entries directory.now)) text.new }
{
    for i in 0..directory.len() / 16 {
        put_entry(text, directory::entry(directory, i));
    }
}

// The line of a refusal.
pub fn refusal(n: u32) -> Listing
    ensures { Holds (number_line refused_word n) result }
{
    let mut text = Text::new();
    put_line(&mut text, b"refused ", n as usize);
    Listing::of(&text)
}

// The first line and the lines of an archive's jobs.
fn jobs(directory: &[u8]) -> Listing
    requires { Printable directory.now }
    ensures { Holds (text_of (gives (entries directory.now)) directory.now) result }
{
    let mut text = Text::new();
    put_line(&mut text, b"jobs ", directory.len() / 16);
    put_entries(&mut text, directory);
    Listing::of(&text)
}

// Whether the start and the length in an entry have at most five digits.
#[tactic(auto, unfolding(crate::specs::Text::is_short))]
fn short(e: &[u8]) -> bool
    ensures { result ≡ is_short e.now }
{
    u32_at(e, 8) < 100000 && u32_at(e, 12) < 100000
}

// Whether the lines of a directory fit.
#[tactic(auto, using(crate::proofs::Directories::printable_ways))]
fn printable(directory: &[u8]) -> bool
    ensures { result ≡ is_printable directory.now }
{
    let count = directory.len() / 16;
    if count > 64 {
        return false;
    }
    for i in 0..count {
        if !short(directory::entry(directory, i)) {
            return false;
        }
    }
    true
}

// The text of a directory that somebody holds, as `dropping::preview` writes one; no bytes for one that no accepted archive can have.
#[tactic(auto, using(crate::proofs::Directories::text_ways))]
pub fn list_directory(directory: &[u8]) -> Listing
    ensures { Holds (directory_text directory.now) result }
{
    if !printable(directory) {
        return Listing::of(&[]);
    }
    jobs(directory)
}

// The text that `jobs` prints for a key, a tag key and a file.
#[tactic(auto, using(crate::proofs::Accepted::given_printable, crate::proofs::Accepted::given_text, crate::proofs::Accepted::refused_text))]
pub fn list(key: &[u8], tag_key: &[u8], file: &[u8]) -> Listing
    ensures { Holds (listing_text key.now tag_key.now file.now) result }
{
    match archive::check(key, tag_key, file) {
        Ok(_) => jobs(header::directory(file)),
        Err(refused) => refusal(u32::from(refused)),
    }
}
