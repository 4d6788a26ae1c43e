// Key preparation (01): the words of a key by the byte boxes, and from these its schedule.
#![tactic(auto)]

ghost use Rattle.std.specs.Prelude.{◌≡◌};
ghost use Rattle.boxes.specs.Boxes.{box_by};
ghost use Rattle.expansion.specs.KeySchedule.{words_by, words_of, Prepares};

use circuit::GoodSchedule;
use refusals::Refusal;

// W0 to W3 from KL, KR and the constants, over any four tables that are lent as boxes.
#[tactic(auto, unfolding(expansion::specs::KeySchedule::words_by))]
fn words_by(t: &[[u8; 256]; 4], kl: [u8; 16], kr: [u8; 16], ck: [[u8; 16]; 3]) -> [[u8; 16]; 4]
    ensures { result ≡ words_by (box_by t.now) kl kr ck }
{
    let w1 = blocks::xor(rounds::odd_round(t, ck[0], kl), kr);
    let w2 = blocks::xor(rounds::even_round(t, ck[1], w1), kl);
    let w3 = blocks::xor(rounds::odd_round(t, ck[2], w2), w1);
    [kl, w1, w2, w3]
}

// W0 to W3 of a key. Of a key of another length than 16, 24 or 32 bytes 01 has none; these are the definition's then.
#[tactic(auto, using(crate::proofs::Making::words_of_lem, blocks::proofs::Blocks::block_part))]
pub fn words(key: &[u8]) -> [[u8; 16]; 4]
    ensures { result ≡ words_of key.now }
{
    let t = sbox::tables();
    let kl = blocks::load(key);
    let kr = blocks::load(octets::part(key, 16, 16));
    words_by(&t, kl, kr, expansion::constants(key.len()))
}

// The schedule of a key; refusal 1 where no key has its length.
#[tactic(auto, unfolding(expansion::specs::KeySchedule::schedule_of))]
pub fn prepare(key: &[u8]) -> Result<GoodSchedule, Refusal>
    ensures { Prepares key.now result }
{
    expansion::expand(key.len(), words(key))
}
