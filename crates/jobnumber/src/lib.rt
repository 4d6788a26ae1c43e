// Job numbers, at the front of a slice of bytes: whether they are digits, and their order. Every call is total.
#![tactic(auto)]

ghost use Rattle.std.specs.Prelude.{◌≡◌, ◌+◌, ◌*◌, ◌<◌};
ghost use Rattle.decimal.specs.Decimal.{digit_value};
ghost use Rattle.jobnumber.specs.Number.{digits, is_job_number, job_number, century_of, order_of};

use decimal::digit_at;

// Whether the first eight bytes are digits.
#[tactic(auto, unfolding(crate::specs::Number::digits))]
pub fn all_digits(s: &[u8]) -> bool
    ensures { result ≡ digits s.now }
{
    decimal::all_digits(s, 8)
}

// Whether a job number may be asked for: eight bytes, all digits.
#[tactic(auto, unfolding(crate::specs::Number::is_job_number))]
pub fn is_job_number(s: &[u8]) -> bool
    ensures { result ≡ is_job_number s.now }
{
    s.len() == 8 && all_digits(s)
}

// The number that the digits at two places are.
fn pair(s: &[u8], tens: usize, ones: usize) -> usize
    ensures { (result ≡ digit_value s.now tens * 10 + digit_value s.now ones) × (result < 3000) }
{
    digit_at(s, tens) * 10 + digit_at(s, ones)
}

// The first two of the four digits of a job number's year.
#[tactic(auto, using(crate::proofs::Order::century_old, crate::proofs::Order::century_recent))]
fn century_of(s: &[u8]) -> usize
    ensures { (result ≡ century_of s.now) × (result < 100) }
{
    let year = pair(s, 0, 1);
    if year < 70 { 20 } else { 19 }
}

// The job number that the first eight bytes are.
fn job_number(s: &[u8]) -> usize
    ensures { (result ≡ job_number s.now) × (result < 4000000000) }
{
    let a = pair(s, 0, 1);
    let b = pair(s, 2, 3);
    let c = pair(s, 4, 5);
    let d = pair(s, 6, 7);
    ((a * 100 + b) * 100 + c) * 100 + d
}

// The place of a job number in the order of the entries: by its year, then by its other six digits. The year's first two digits go before
// the eight.
pub fn order_of(s: &[u8]) -> usize
    ensures { result ≡ order_of s.now }
{
    let century = century_of(s);
    let number = job_number(s);
    century * 100000000 + number
}
