// Bytes as hexadecimal text, for the programs that print known values.
#![tactic(auto)]

ghost use Rattle.std.specs.Prelude.{◌≡◌, ◌<◌, Some};
ghost use Rattle.std.specs.Char.{digit_char};
ghost use Rattle.hexbytes.specs.Text.{digits, hex_text};

use std::{fmt, str};

// Half a byte as a digit.
fn digit(half: u8) -> u8
    requires { half < 16 }
    ensures { result ≡ digit_char half }
{
    if half < 10 {
        b'0' + half
    } else {
        b'a' + (half - 10)
    }
}

// A byte that prints as two digits.
#[derive(Clone, Copy)]
struct Digits(u8);

impl fmt::Display for Digits {
    ghost output = { λ byte. Some (digits byte.0) };

    fn fmt<W: fmt::Write>(&self, f: &mut fmt::Formatter<W>) -> fmt::Result {
        let text = [digit(self.0 / 16), digit(self.0 % 16)];
        f.write_str(str::from_utf8(&text).map_err(|_| fmt::Error)?)
    }
}

// Prints as two digits for each byte.
#[derive(Clone, Copy)]
pub struct Hex<'a>(pub &'a [u8]);

impl fmt::Display for Hex<'_> {
    ghost output = { λ hex. Some (hex_text hex.0.now) };

    fn fmt<W: fmt::Write>(&self, f: &mut fmt::Formatter<W>) -> fmt::Result {
        for byte in self.0 {
            f.write(Digits(*byte))?;
        }
        Ok(())
    }
}
