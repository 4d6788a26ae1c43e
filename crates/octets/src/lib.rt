// Bytes in slices: numbers, equality, parts with their place, copying and putting. Every call is total.
#![tactic(auto)]

ghost use Rattle.std.specs.Prelude.{◌≡◌, ◌<◌, get_or};
ghost use Rattle.octets.specs.Numbers.{be16, be32, bytes32};
ghost use Rattle.octets.specs.Equality.{same_bytes};
ghost use Rattle.octets.specs.Parts.{PartOf, overwritten, Puts};

use std::array;

// The byte at a place, 0 past the end.
fn octet(s: &[u8], at: usize) -> u8
    ensures { result ≡ get_or s.now at 0 }
{
    s.get(at).copied().unwrap_or(0)
}

// The same as a number of the machine's size.
pub fn byte_at(s: &[u8], at: usize) -> usize
    ensures { (result ≡ get_or s.now at 0) × (result < 256) }
{
    usize::from(octet(s, at))
}

// The number of two bytes. A field's place in a record is small: as a `u8` it needs no bound.
pub fn u16_at(s: &[u8], at: u8) -> usize
    ensures { (result ≡ be16 s.now at) × (result < 65536) }
{
    let bytes = array::from_fn(|i| octet(s, usize::from(at) + i));
    usize::from(u16::from_be_bytes(bytes))
}

// The number of four bytes. Each width has a from_be_bytes of its own, and no trait joins them.
pub fn u32_at(s: &[u8], at: u8) -> usize
    ensures { (result ≡ be32 s.now at) × (result < 4294967296) }
{
    let bytes = array::from_fn(|i| octet(s, usize::from(at) + i));
    u32::from_be_bytes(bytes) as usize
}

// Four bytes of a number, the most significant first.
pub fn in_four(n: usize) -> [u8; 4]
    ensures { result ≡ bytes32 n }
{
    ((n % 4294967296) as u32).to_be_bytes()
}

// Whether two byte strings are equal.
#[tactic(auto, using(crate::proofs::Equality::pointwise_same))]
pub fn same(a: &[u8], b: &[u8]) -> bool
    ensures { result ≡ same_bytes a.now b.now }
{
    a == b
}

// The n bytes of s from `from` on, as many as there are; a part of s.
pub fn part(s: &[u8], from: usize, n: usize) -> &[u8]
    ensures { PartOf s.entry from n result }
{
    let rest = &s[from.min(s.len())..];
    &rest[..n.min(rest.len())]
}

// Copies bytes over the front of a buffer, as far as both reach. It is a loop: `copy_from_slice` calls `memmove` where the compiler does
// not know the length, and a static library for C would then need that from outside.
pub fn copy(bytes: &[u8], out: &mut [u8])
    ensures { out.new ≡ overwritten bytes.now out.old }
{
    for j in 0..bytes.len().min(out.len()) {
        out[j] = bytes[j];
    }
}

// Puts bytes into a buffer from `at` on, and answers the place behind them; where they do not fit, writes nothing and answers `at`.
#[tactic(auto, using(crate::proofs::Laying::puts_none))]
pub fn put(out: &mut [u8], at: usize, bytes: &[u8]) -> usize
    ensures { Puts out.old at bytes.now result out.new }
{
    let Some(end) = at.checked_add(bytes.len()) else {
        return at;
    };
    if out.len() < end {
        return at;
    }
    out[at..end].copy_from_slice(bytes);
    end
}
