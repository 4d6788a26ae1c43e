// From the words of a key to its round keys, and from a schedule to its decryption schedule: what needs no box.
#![tactic(auto)]

ghost use Rattle.std.specs.Prelude.{◌≡◌, List, [], ℕ, ◌<◌, ◌≤◌, get_or, IfOk, Ok};
ghost use Rattle.refusals.specs.Cases.{first_of};
ghost use Rattle.refusals.specs.Numbers.{number_in};
ghost use Rattle.refusals.specs.Shared.{key_cases, good_rounds};
ghost use Rattle.expansion.specs.KeySchedule.{constants_for, four, encryption_keys, key_bytes, rounds_for, Expands};
ghost use Rattle.expansion.specs.Decryption.{decryption_key, decryption_of, Reverses};

use circuit::{GoodSchedule, Schedule};
use refusals::Refusal;

// The constants C1, C2 and C3 of RFC 5794.
const C1: [u8; 16] = [
    0x51, 0x7c, 0xc1, 0xb7, 0x27, 0x22, 0x0a, 0x94, 0xfe, 0x13, 0xab, 0xe8, 0xfa, 0x9a, 0x6e, 0xe0,
];

const C2: [u8; 16] = [
    0x6d, 0xb1, 0x4a, 0xcc, 0x9e, 0x21, 0xc8, 0x20, 0xff, 0x28, 0xb1, 0xd5, 0xef, 0x5d, 0xe2, 0xb0,
];

const C3: [u8; 16] = [
    0xdb, 0x92, 0x37, 0x1d, 0x21, 0x26, 0xe9, 0x70, 0x03, 0x24, 0x97, 0x75, 0x04, 0xe8, 0xc9, 0x0e,
];

// CK1, CK2 and CK3 for a key of n bytes; those of 32 for a length that no key has.
pub fn constants(n: usize) -> [[u8; 16]; 3]
    ensures { result ≡ constants_for n }
{
    match n {
        16 => [C1, C2, C3],
        24 => [C2, C3, C1],
        _ => [C3, C1, C2],
    }
}

// Four round keys, each of a word and one that is rotated by k places.
fn four_keys<F: Fn([u8; 16], u32) -> [u8; 16]>(w: [[u8; 16]; 4], rotate: F, k: u32) -> [[u8; 16]; 4]
    requires { F.IsAlwaysCallable rotate }
    ensures { (r : List ℕ → List ℕ) → ((x y : List ℕ) → F.post rotate x k y → y ≡ r x) → result ≡ four r w }
{
    [
        blocks::xor(w[0], rotate(w[1], k)),
        blocks::xor(w[1], rotate(w[2], k)),
        blocks::xor(w[2], rotate(w[3], k)),
        blocks::xor(rotate(w[0], k), w[3]),
    ]
}

// The seventeen round keys of W0 to W3.
fn encryption_keys(w: [[u8; 16]; 4]) -> [[u8; 16]; 17]
    ensures { result ≡ encryption_keys w }
{
    let a = four_keys(w, rotation::right, 19);
    let b = four_keys(w, rotation::right, 31);
    let c = four_keys(w, rotation::left, 61);
    let d = four_keys(w, rotation::left, 31);
    let last = blocks::xor(w[0], rotation::left(w[1], 19));
    [
        a[0], a[1], a[2], a[3], b[0], b[1], b[2], b[3], c[0], c[1], c[2], c[3], d[0], d[1], d[2],
        d[3], last,
    ]
}

// The key bytes of a schedule that uses the first n keys of a rule.
fn key_bytes<F: Fn(usize) -> [u8; 16]>(n: usize, key: F) -> [u8; 272]
    requires few { n ≤ 17 }
    requires callable { (i : ℕ) → i < n → F.pre key i }
    ensures { (rule : ℕ → List ℕ) → ((i : ℕ) (k : List ℕ) → i < n → F.post key i k → k ≡ rule i) → result ≡ key_bytes rule n }
{
    let mut out = [0u8; 272];
    for i in 0..n {
        let at = 16 * i;
        blocks::store(key(i), &mut out[at..at + 16]);
    }
    out
}

// The rounds for a key of n bytes; refusal 1 where a key has no such length.
#[tactic(auto, using(crate::proofs::KeyLengths::number_told), unfolding(crate::specs::KeySchedule::rounds_for))]
fn rounds_for(n: usize) -> Result<usize, Refusal>
    ensures number { number_in result ≡ first_of (key_cases n) }
    ensures rounds { IfOk result (λ rounds. rounds ≡ rounds_for n) }
{
    match n {
        16 => Ok(12),
        24 => Ok(14),
        32 => Ok(16),
        _ => Err(Refusal::KeyLength),
    }
}

// The schedule of the words of a key of n bytes; refusal 1 where no key has n bytes.
#[tactic(auto, using(crate::proofs::KeyLengths::expand_refused))]
pub fn expand(n: usize, words: [[u8; 16]; 4]) -> Result<GoodSchedule, Refusal>
    ensures { Expands n words result }
{
    let rounds = rounds_for(n)?;
    let all = encryption_keys(words);
    let keys = key_bytes(
        rounds + 1,
        |i: usize|
            requires { i < 17 }
            ensures { result ≡ get_or all i [] }
        { all[i] },
    );
    let schedule = Schedule { rounds, keys };
    Ok(GoodSchedule { schedule })
}

// Decryption key i, counted from 0, of the keys for n rounds.
#[tactic(auto, using(crate::proofs::Reversal::outer_key, crate::proofs::Reversal::inner_key))]
fn decryption_key(keys: &[u8; 272], n: usize, i: usize) -> [u8; 16]
    requires { i ≤ n }
    ensures { result ≡ decryption_key n keys.now i }
{
    let key = circuit::round_key(keys, n - i);
    if i == 0 || i == n {
        key
    } else {
        diffusion::diffuse(key)
    }
}

// The schedule that undoes a good schedule (01's turning round).
pub fn reversed(good: GoodSchedule) -> GoodSchedule
    ensures schedule { result.schedule ≡ decryption_of good.schedule }
    ensures reverses { Reverses good.schedule (Ok result) }
{
    let rounds = good.schedule.rounds;
    let used = good.schedule.keys;
    let keys = key_bytes(
        rounds + 1,
        |i: usize|
            requires { i ≤ rounds }
            ensures { result ≡ decryption_key rounds used i }
        { decryption_key(&used, rounds, i) },
    );
    let schedule = Schedule { rounds, keys };
    GoodSchedule { schedule }
}

// The schedule that undoes a schedule; refusal 3 where its round count is no good.
#[tactic(auto, using(crate::proofs::Reversal::reverse_refused))]
pub fn decryption_schedule(schedule: Schedule) -> Result<GoodSchedule, Refusal>
    ensures { Reverses schedule result }
{
    let good = GoodSchedule::try_from(schedule)?;
    Ok(reversed(good))
}
