// ARIA under a key, by either engine, and CMAC with it: what `aria_c` exports as libaria.a, for callers in Rattle.
#![tactic(auto)]

ghost use Rattle.std.specs.Prelude.{◌≡◌};
ghost use Rattle.refusals.specs.Numbers.{number_in};
ghost use Rattle.keyed.specs.KeyRun.{RanUnderKey};
ghost use Rattle.cmac.specs.Tag.{verify_number, WritesTag};

pub use engines::Engine;
pub use refusals::Refusal;

// A run under a key, forward by direction 0 and back by 1: refusal 1, 2 or 4.
pub fn run(engine: Engine, key: &[u8], direction: u32, run: &mut [u8]) -> Result<(), Refusal>
    ensures { RanUnderKey key.now direction run.old (number_in result) run.new }
{
    keyed::run(engine, key, direction, run)
}

// Writes the CMAC of a run under a key into a lent tag: refusals 1 and 23 leave the lent tag as it was.
pub fn cmac(key: &[u8], run: &[u8], tag: &mut [u8]) -> Result<(), Refusal>
    ensures { WritesTag key.now run.now tag.old (number_in result) tag.new }
{
    cmac::tag_into(key, run, tag)
}

// Whether a lent tag is the CMAC of a run under a key: refusal 1 or 23, or 25 where it is another.
pub fn cmac_verify(key: &[u8], run: &[u8], tag: &[u8]) -> Result<(), Refusal>
    ensures { number_in result ≡ verify_number key.now run.now tag.now }
{
    cmac::verify(key, run, tag)
}
