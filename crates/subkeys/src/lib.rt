// The subkeys of CMAC (SP 800-38B, section 6.1): K1 is made of L, and K2 of K1 by the same rule. L is as secret as the key, so no branch
// depends on it.
#![tactic(auto)]

ghost use Rattle.std.specs.Prelude.{◌≡◌, cond, ◌+◌, ◌*◌, ◌/◌, ◌%◌, ◌<◌, ltb, get_or};
ghost use Rattle.blocks.specs.Chains.{zero_block};
ghost use Rattle.subkeys.specs.Subkeys.{shifted_left, r128, doubled, subkey_for};

// Byte i of a block shifted left by one bit.
fn shifted_byte(block: [u8; 16], i: usize) -> u8
    requires { i < 16 }
    ensures { result ≡ get_or block i 0 * 2 % 256 + get_or block (i + 1) 0 / 128 }
{
    let here = octets::byte_at(&block, i);
    let next = octets::byte_at(&block, i + 1);
    (here * 2 % 256 + next / 128) as u8
}

// A block shifted left by one bit.
fn shift_left(block: [u8; 16]) -> [u8; 16]
    ensures { result ≡ shifted_left block }
{
    let mut out = block;
    for (i, b) in out.iter_mut().enumerate() {
        *b = shifted_byte(block, i);
    }
    out
}

// What is added to the shifted block: R where the top bit of the block is 1, and else zero bytes.
#[tactic(auto, using(crate::proofs::Doubling::reduction_law))]
fn reduction(block: [u8; 16]) -> [u8; 16]
    ensures { result ≡ cond (ltb (get_or block 0 0) 128) zero_block r128 }
{
    let mut out = [0u8; 16];
    out[15] = block[0] / 128 * 0x87;
    out
}

// K1 of L, and K2 of K1.
#[tactic(auto, using(crate::proofs::Doubling::double_law))]
fn double(block: [u8; 16]) -> [u8; 16]
    ensures { result ≡ doubled block }
{
    blocks::xor(shift_left(block), reduction(block))
}

// The subkey for the last block of a message: K1 where the message filled it, and else K2.
#[tactic(auto, unfolding(crate::specs::Subkeys::subkey_for))]
pub fn subkey(l: [u8; 16], complete: bool) -> [u8; 16]
    ensures { result ≡ subkey_for complete l }
{
    let k1 = double(l);
    if complete { k1 } else { double(k1) }
}
