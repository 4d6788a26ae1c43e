// Numbers in decimal: whether bytes are digits, the value of a digit, and the number that a word is. Every call is total.
#![tactic(auto)]

ghost use Rattle.std.specs.Prelude.{◌≡◌, ◌<◌};
ghost use Rattle.std.specs.List.{list_all};
ghost use Rattle.decimal.specs.Decimal.{is_digit, all_digits, digit_value};
ghost use Rattle.decimal.specs.Word.{Reads, ReadsDigits};

// Whether all bytes are digits.
fn are_digits(s: &[u8]) -> bool
    ensures { result ≡ list_all is_digit s.now }
{
    s.iter().all(|b| b.is_ascii_digit())
}

// Whether the first n bytes are digits; a byte that is missing is none.
#[tactic(auto, using(crate::proofs::Digits::all_front, crate::proofs::Digits::all_short))]
pub fn all_digits(s: &[u8], n: usize) -> bool
    ensures { result ≡ all_digits s.now n }
{
    match s.get(..n) {
        Some(front) => are_digits(front),
        None => false,
    }
}

// The value of the digit at a place: of a byte that is none, how far it is above the digit 0; 0 where it is below that, or missing.
pub fn digit_at(s: &[u8], at: usize) -> usize
    ensures { (result ≡ digit_value s.now at) × (result < 256) }
{
    octets::byte_at(s, at).saturating_sub(48)
}

// The number that bytes are, taken as digits, however many and whatever they are; none where it does not fit 64 bits.
fn read_digits(word: &[u8]) -> Option<usize>
    ensures { ReadsDigits word.now result }
{
    let mut value: usize = 0;
    for b in word {
        let digit = usize::from(b.saturating_sub(b'0'));
        value = value.checked_mul(10)?.checked_add(digit)?;
    }
    Some(value)
}

// The number that a word is, of 1 to 20 digits and at most 2^64 - 1.
#[tactic(auto, unfolding(crate::specs::Word::is_decimal))]
pub fn read(word: &[u8]) -> Option<usize>
    ensures { Reads word.now result }
{
    let n = word.len();
    if n == 0 || 20 < n || !all_digits(word, n) {
        return None;
    }
    read_digits(word)
}
