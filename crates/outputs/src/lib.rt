// What the programs write: bytes to a stream.
#![tactic(auto)]

ghost use Rattle.std.specs.Prelude.{◌≡◌, ◌<◌, ◌≤◌, IfOk, IsOk, length};

use std::io;
use std::io::{Error, ErrorKind, Print};

// One write; answers how many of the first bytes it took, at least one. One that takes nothing has failed.
fn write_once(to: &impl Print, bytes: &[u8]) -> io::Result<usize>
    ensures { IfOk result (λ n. (0 < n) × (n ≤ length bytes.now)) }
{
    match to.write_some(bytes)? {
        0 => Err(Error::from(ErrorKind::WriteZero)),
        n => Ok(n),
    }
}

// Writes all of the bytes, or stops at the first write that takes nothing or fails, when some of the bytes may have been written. Of no
// bytes it makes no call.
pub fn write_all(to: &impl Print, bytes: &[u8]) -> io::Result<()>
    ensures { length bytes.now ≡ 0 → IsOk result }
{
    let mut rest = bytes;
    while !rest.is_empty() {
        let n = write_once(to, rest)?;
        rest = &rest[n..];
    }
    Ok(())
}
