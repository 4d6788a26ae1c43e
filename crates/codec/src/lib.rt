// An archive as its jobs: the header and the entries that are written, and the laws of building an archive of jobs and reading it back.
// Every call is total.
#![tactic(auto)]

ghost use Rattle.std.specs.Prelude.{◌≡◌};
ghost use Rattle.octets.specs.Numbers.{bytes16};
ghost use Rattle.codec.specs.Jobs.{entry_of};
ghost use Rattle.codec.specs.Archive.{header_of};

// Two bytes of a number, the most significant first; of one that they do not hold, the remainder is written.
fn in_two(n: usize) -> [u8; 2]
    ensures { result ≡ bytes16 n }
{
    ((n % 65536) as u16).to_be_bytes()
}

// A header of these fields; of a count or a length that its field does not hold, the remainder is written.
pub fn header(
    layout: u8,
    keysize: u8,
    count: usize,
    number: [u8; 4],
    check: [u8; 8],
    whole: usize,
) -> [u8; 20]
    ensures { result ≡ header_of layout keysize count number check whole }
{
    let [high, low] = in_two(count);
    let mut out = [0; 20];
    let second = octets::put(&mut out, 0, &[layout, keysize, high, low]);
    let third = octets::put(&mut out, second, &number);
    let last = octets::put(&mut out, third, &check);
    octets::put(&mut out, last, &octets::in_four(whole));
    out
}

// The entry of a job whose body of `size` bytes starts at a place, with remainders likewise.
pub fn entry(number: [u8; 8], start: usize, size: usize) -> [u8; 16]
    ensures { result ≡ entry_of number start size }
{
    let mut out = [0; 16];
    let second = octets::put(&mut out, 0, &number);
    let third = octets::put(&mut out, second, &octets::in_four(start));
    octets::put(&mut out, third, &octets::in_four(size));
    out
}
