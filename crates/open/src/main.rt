// Writes plain bytes of the job that its first word names, all of them or the range that two more words ask for, from the archive on
// standard input, under the key in key.bin and the tag key in tag.bin.
// A refusal goes to standard error, so that plain bytes can never be mistaken for one, and so does what goes wrong outside the archive.
#![tactic(auto)]

ghost use Rattle.refusals.specs.Numbers.{answer_of};
ghost use Rattle.opening.specs.Open.{job_size, Opens};
ghost use Rattle.open.specs.Asked.{first_in, count_in};

use programs::Failure;
use refusals::Refusal;
use std::io::IsTerminal;

// What is asked for of a job.
#[derive(Clone, Copy)]
enum Asked {
    Whole,
    // the first byte, and how many
    Range(usize, usize),
}

fn print_usage(rt: &HostRuntime) {
    let _ = outputs::write_all(
        &rt.stderr(),
        b"usage: open NUMBER [FIRST COUNT] < ARCHIVE > PLAIN\n",
    );
    let _ = outputs::write_all(
        &rt.stderr(),
        b"opens that job, eight digits, or COUNT bytes of it from byte FIRST on, counted from 0, under key.bin and, if there, tag.bin\n",
    );
}

// Opens what is asked for of the job.
fn open_asked(
    key: &[u8],
    tag_key: &[u8],
    file: &[u8],
    number: &[u8],
    asked: Asked,
    plain: &mut [u8],
) -> Result<usize, Refusal>
    ensures { Opens key.now tag_key.now file.now number.now (first_in asked)
        (count_in (job_size file.now number.now) asked) plain.old (answer_of result) plain.new }
{
    match asked {
        Asked::Whole => opening::open(key, tag_key, file, number, plain),
        Asked::Range(first, count) => {
            opening::open_range(key, tag_key, file, number, first, count, plain)
        }
    }
}

// Reads the keys and the archive, opens the job and writes what is asked for. Its buffers are not laid into `main`, so that words which are
// not taken get their usage on a small stack too.
#[inline(never)]
fn open_job(rt: &HostRuntime, number: &[u8], asked: Asked) -> Result<(), Failure> {
    let key = programs::key_file(rt, b"key.bin");
    let tag_key = programs::key_file(rt, b"tag.bin");
    // one byte more than the longest archive
    let mut file = [0u8; 65537];
    let n = inputs::standard_input(rt, &mut file)?;
    // no body is longer than the longest archive
    let mut plain = [0u8; 65536];
    let opened = open_asked(&key, &tag_key, &file[..n], number, asked, &mut plain)?;
    outputs::write_all(&rt.stdout(), &plain[..opened])?;
    Ok(())
}

// The number that word i is.
fn decimal_at(rt: &HostRuntime, i: usize) -> Option<usize> {
    // one byte more than the longest number: a word that does not fit counts as empty, which is no number either
    let mut word = [0u8; 21];
    let n = inputs::word(rt, i, &mut word);
    decimal::read(&word[..n])
}

// The range that the second and the third word ask for.
fn range_asked(rt: &HostRuntime) -> Option<Asked> {
    let first = decimal_at(rt, 2);
    let count = decimal_at(rt, 3);
    Some(Asked::Range(first?, count?))
}

// What the words ask for.
fn asked_for(rt: &HostRuntime) -> Option<Asked> {
    // the program's own name is one of them
    match inputs::word_count(rt) {
        2 => Some(Asked::Whole),
        4 => range_asked(rt),
        _ => None,
    }
}

fn main(rt: HostRuntime) {
    let Some(asked) = asked_for(&rt) else {
        return print_usage(&rt);
    };
    // a hint for who waits at a terminal; it changes nothing that follows
    if rt.stdin().is_terminal() {
        print_usage(&rt);
    }
    // one byte more than a job number: a word that does not fit counts as empty, which is no job number either
    let mut number = [0u8; 9];
    let d = inputs::word(&rt, 1, &mut number);
    if let Err(failure) = open_job(&rt, &number[..d], asked) {
        let _ = outputs::write_all(&rt.stderr(), failure.text(*b"open").bytes());
    }
}
