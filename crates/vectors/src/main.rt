// Runs the published vectors of ARIA by both engines, forward and back, and prints the bytes that it got: those of RFC 5794, appendix A,
// with the words, round keys and decryption round keys of its three keys and the block after each round, and the ARIA test vectors of 2004.
// The stored output is of other origin; tests/vectors/make_expected.py makes it, and says what a line is and where its bytes come from.
#![tactic(auto)]

ghost use Rattle.std.specs.Prelude.{◌≡◌, ◌%◌, ◌≤◌};
ghost use Rattle.boxes.specs.Boxes.{box_by};
ghost use Rattle.circuit.specs.Circuit.{round_after, rounds, circuit};

use aria::Engine;
use circuit::{GoodSchedule, Schedule};
use hexbytes::Hex;
use refusals::Refusal;

// The key of RFC 5794, A.3; those of A.1 and A.2 are its first 16 and 24 bytes.
const RFC_KEY: [u8; 32] = [
    0x00, 0x01, 0x02, 0x03, 0x04, 0x05, 0x06, 0x07, 0x08, 0x09, 0x0a, 0x0b, 0x0c, 0x0d, 0x0e, 0x0f,
    0x10, 0x11, 0x12, 0x13, 0x14, 0x15, 0x16, 0x17, 0x18, 0x19, 0x1a, 0x1b, 0x1c, 0x1d, 0x1e, 0x1f,
];

// The plain block of RFC 5794, appendix A.
const RFC_BLOCK: [u8; 16] = [
    0x00, 0x11, 0x22, 0x33, 0x44, 0x55, 0x66, 0x77, 0x88, 0x99, 0xaa, 0xbb, 0xcc, 0xdd, 0xee, 0xff,
];

// The key of 32 bytes of the vectors of 2004; those of 16 and 24 bytes are its front.
const KEY_2004: [u8; 32] = [
    0x00, 0x11, 0x22, 0x33, 0x44, 0x55, 0x66, 0x77, 0x88, 0x99, 0xaa, 0xbb, 0xcc, 0xdd, 0xee, 0xff,
    0x00, 0x11, 0x22, 0x33, 0x44, 0x55, 0x66, 0x77, 0x88, 0x99, 0xaa, 0xbb, 0xcc, 0xdd, 0xee, 0xff,
];

// Forward, and then back, by an engine. The run back is on the published ciphertext, where the line before has it.
fn engine_lines(
    rt: &HostRuntime,
    name: &str,
    key: &[u8],
    engine: Engine,
    word: &str,
    run: &mut [u8],
) {
    let _ = aria::run(engine, key, 0, run);
    let _ = println!(rt; "{name} {word} forward {}", Hex(run));
    let _ = aria::run(engine, key, 1, run);
    let _ = println!(rt; "{name} {word} back {}", Hex(run));
}

fn run_lines(rt: &HostRuntime, name: &str, key: &[u8], run: &mut [u8]) {
    engine_lines(rt, name, key, Engine::Plain, "plain", run);
    engine_lines(rt, name, key, Engine::Tables, "tables", run);
}

// The line of a block that has a number.
fn print_block(rt: &HostRuntime, name: &str, case: &str, i: usize, block: [u8; 16]) {
    let _ = println!(rt; "{name} {case} {i} {}", Hex(&block));
}

fn word_lines(rt: &HostRuntime, name: &str, key: &[u8]) {
    for (i, word) in preparation::words(key).iter().enumerate() {
        print_block(rt, name, "word", i, *word);
    }
}

// The first n keys of a schedule, counted from 1.
fn print_keys(rt: &HostRuntime, name: &str, case: &str, schedule: Schedule, n: u8) {
    for i in 0..usize::from(n) {
        print_block(rt, name, case, i + 1, circuit::round_key(&schedule.keys, i));
    }
}

// The round that follows i rounds: odd after an even number.
fn round_after(t: &[[u8; 256]; 4], i: usize, key: [u8; 16], block: [u8; 16]) -> [u8; 16]
    ensures { result ≡ round_after (box_by t.now) (i % 2) key block }
{
    if i % 2 == 0 {
        rounds::odd_round(t, key, block)
    } else {
        rounds::even_round(t, key, block)
    }
}

// A block after n rounds, before the last.
#[tactic(auto, unfolding(circuit::specs::Circuit::rounds))]
fn after_rounds(t: &[[u8; 256]; 4], keys: &[u8; 272], n: usize, block: [u8; 16]) -> [u8; 16]
    ensures { result ≡ rounds (box_by t.now) keys.now n block }
{
    let mut x = block;
    for i in 0..n {
        let y = round_after(t, i, circuit::round_key(keys, i), x);
        x = y;
    }
    x
}

// A block after n rounds, the last of them without A.
#[tactic(auto, unfolding(circuit::specs::Circuit::circuit))]
fn after_last(t: &[[u8; 256]; 4], keys: &[u8; 272], n: usize, block: [u8; 16]) -> [u8; 16]
    requires { 1 ≤ n }
    ensures { result ≡ circuit (box_by t.now) n keys.now block }
{
    let i = n - 1;
    let x = after_rounds(t, keys, i, block);
    rounds::last_round(
        t,
        circuit::round_key(keys, i),
        circuit::round_key(keys, n),
        x,
    )
}

// The RFC's block after each round, counted from 1.
#[tactic(auto, unfolding(refusals::specs::Shared::good_rounds))]
fn round_lines(rt: &HostRuntime, name: &str, good: GoodSchedule) {
    let schedule = good.schedule;
    let t = sbox::tables();
    let n = schedule.rounds;
    for i in 1..n {
        print_block(
            rt,
            name,
            "round",
            i,
            after_rounds(&t, &schedule.keys, i, RFC_BLOCK),
        );
    }
    print_block(
        rt,
        name,
        "round",
        n,
        after_last(&t, &schedule.keys, n, RFC_BLOCK),
    );
}

// The n round keys of a key, its decryption round keys, and the rounds.
fn key_lines(rt: &HostRuntime, name: &str, key: &[u8], n: u8) -> Result<(), Refusal> {
    let prepared = preparation::prepare(key)?;
    print_keys(rt, name, "round-key", prepared.schedule, n);
    let reversed = expansion::decryption_schedule(prepared.schedule)?;
    print_keys(rt, name, "decryption-key", reversed.schedule, n);
    round_lines(rt, name, prepared);
    Ok(())
}

// A key of RFC 5794, appendix A, which has n round keys.
fn rfc_lines(rt: &HostRuntime, name: &str, key: &[u8], n: u8) {
    let mut block = RFC_BLOCK;
    run_lines(rt, name, key, &mut block);
    word_lines(rt, name, key);
    let _ = key_lines(rt, name, key, n);
}

fn rfc_keys(rt: &HostRuntime) {
    rfc_lines(rt, "aria-128", &RFC_KEY[..16], 13);
    rfc_lines(rt, "aria-192", &RFC_KEY[..24], 15);
    rfc_lines(rt, "aria-256", &RFC_KEY, 17);
}

// Byte j of the plain blocks of 2004: words of eight bytes, 11111111aaaaaaaa, 11111111bbbbbbbb, .., 22222222aaaaaaaa, ..
fn byte_2004(j: u8) -> u8 {
    if j % 8 < 4 {
        0x11 * (1 + j / 32)
    } else {
        0xaa + 0x11 * (j / 8 % 4)
    }
}

// The ten plain blocks of 2004.
fn blocks_2004() -> [u8; 160] {
    let mut out = [0u8; 160];
    for j in 0..160u8 {
        out[usize::from(j)] = byte_2004(j);
    }
    out
}

fn keys_2004(rt: &HostRuntime) {
    run_lines(rt, "aria-2004-128", &KEY_2004[..16], &mut blocks_2004());
    run_lines(rt, "aria-2004-192", &KEY_2004[..24], &mut blocks_2004());
    run_lines(rt, "aria-2004-256", &KEY_2004, &mut blocks_2004());
}

fn main(rt: HostRuntime) {
    rfc_keys(&rt);
    keys_2004(&rt);
}
