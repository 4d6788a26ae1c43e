// ARIA for programs in Rust and C: what libaria.a exports, and nothing else. Each export is a call of `aria`, answered by its number.
#![tactic(auto)]

ghost use Rattle.std.specs.Prelude.{◌≡◌};
ghost use Rattle.keyed.specs.KeyRun.{RanUnderKey};
ghost use Rattle.cmac.specs.Tag.{verify_number, WritesTag};

use aria::Engine;

// A run under a key by the plain engine: 0, or 01's refusal 1, 2 or 4.
#[unsafe(no_mangle)]
pub extern "C" fn aria_run_plain(key: &[u8], direction: u32, run: &mut [u8]) -> u32
    ensures { RanUnderKey key.now direction run.old result run.new }
{
    refusals::number_of(aria::run(Engine::Plain, key, direction, run))
}

// The same by the word-table engine.
#[unsafe(no_mangle)]
pub extern "C" fn aria_run_tables(key: &[u8], direction: u32, run: &mut [u8]) -> u32
    ensures { RanUnderKey key.now direction run.old result run.new }
{
    refusals::number_of(aria::run(Engine::Tables, key, direction, run))
}

// Writes the CMAC of a run under a key into a lent tag: 0, or 1 or 23, which leave the lent tag as it was.
#[unsafe(no_mangle)]
pub extern "C" fn aria_cmac(key: &[u8], run: &[u8], tag: &mut [u8]) -> u32
    ensures { WritesTag key.now run.now tag.old result tag.new }
{
    refusals::number_of(aria::cmac(key, run, tag))
}

// Whether a lent tag is the CMAC of a run under a key: 0 for yes, 25 for no, or 1 or 23.
#[unsafe(no_mangle)]
pub extern "C" fn aria_cmac_verify(key: &[u8], run: &[u8], tag: &[u8]) -> u32
    ensures { result ≡ verify_number key.now run.now tag.now }
{
    refusals::number_of(aria::cmac_verify(key, run, tag))
}
