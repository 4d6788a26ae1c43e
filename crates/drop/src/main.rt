// Writes the archive on standard input without the jobs that its words name, under the key in key.bin and the tag key in tag.bin; or, where
// the first word is `--preview`, prints what `jobs` would print of that archive, and writes none.
// A refusal goes to standard error, so that a shell can never take one for an archive, and so does what goes wrong outside the archive.
#![tactic(auto)]

ghost use Rattle.std.specs.Prelude.{◌≡◌, ◌≤◌, IfSome};
ghost use Rattle.drop.specs.Words.{asks_preview, words_before, slot_of};

use programs::Failure;
use std::io::IsTerminal;

fn print_usage(rt: &HostRuntime) {
    let _ = outputs::write_all(&rt.stderr(), b"usage: drop NUMBER.. < ARCHIVE > SMALLER\n");
    let _ = outputs::write_all(
        &rt.stderr(),
        b"drops these jobs, 1 to 64 numbers of eight digits, and writes the archive without them, ",
    );
    let _ = outputs::write_all(&rt.stderr(), b"under key.bin and, if there, tag.bin\n");
}

// Drops the jobs of the list and writes the new archive.
fn write_archive(
    rt: &HostRuntime,
    key: &[u8],
    tag_key: &[u8],
    file: &[u8],
    list: &[u8],
) -> Result<(), Failure> {
    // no archive is longer
    let mut smaller = [0u8; 65536];
    let n = dropping::drop(key, tag_key, file, list, &mut smaller)?;
    outputs::write_all(&rt.stdout(), &smaller[..n])?;
    Ok(())
}

// Prints the jobs that dropping those of the list would leave; the line of a refusal goes to standard error.
fn print_preview(
    rt: &HostRuntime,
    key: &[u8],
    tag_key: &[u8],
    file: &[u8],
    list: &[u8],
) -> Result<(), Failure> {
    match preview_listing::list_left(key, tag_key, file, list) {
        Ok(left) => outputs::write_all(&rt.stdout(), left.bytes())?,
        Err(refused) => {
            let _ = outputs::write_all(&rt.stderr(), refused.line.bytes());
        }
    }
    Ok(())
}

// Reads the keys and the archive, and drops the jobs of the list, or shows what that would leave.
fn drop_listed(rt: &HostRuntime, preview: bool, list: &[u8]) -> Result<(), Failure> {
    let key = programs::key_file(rt, b"key.bin");
    let tag_key = programs::key_file(rt, b"tag.bin");
    // one byte more than the longest archive
    let mut file = [0u8; 65537];
    let n = inputs::standard_input(rt, &mut file)?;
    if preview {
        return print_preview(rt, &key, &tag_key, &file[..n], list);
    }
    write_archive(rt, &key, &tag_key, &file[..n], list)
}

// Whether a word asks for the preview.
fn asks_preview(word: &[u8]) -> bool
    ensures { result ≡ asks_preview word.now }
{
    octets::same(word, b"--preview")
}

// Whether the first word does.
fn preview_asked(rt: &HostRuntime) -> bool {
    // a word that does not fit counts as empty
    let mut word = [0u8; 9];
    let n = inputs::word(rt, 1, &mut word);
    asks_preview(&word[..n])
}

// How many words stand before the numbers: the program's own name, and `--preview`.
fn words_before(preview: bool) -> usize
    ensures { result ≡ words_before preview }
{
    if preview { 2 } else { 1 }
}

// The eight bytes of the list that a word becomes: the word, or where it has another length zero bytes, which are no job number. So each
// word has a place of its own, and words that run together can name no job.
#[tactic(auto, using(octets::proofs::Parts::overwritten_whole), unfolding(crate::specs::Words::slot_of))]
fn slot(word: &[u8]) -> [u8; 8]
    ensures { result ≡ slot_of word.now }
{
    let mut number = [0u8; 8];
    if word.len() == 8 {
        octets::copy(word, &mut number);
    }
    number
}

// The eight bytes of word i.
fn slot_at(rt: &HostRuntime, i: usize) -> [u8; 8] {
    // one byte more than a job number: a word that does not fit counts as empty, which is no job number either
    let mut word = [0u8; 9];
    let n = inputs::word(rt, i, &mut word);
    slot(&word[..n])
}

// How many words from word `first` on the program was started with: 1 to 64, since no archive has more jobs.
fn numbers_from(rt: &HostRuntime, first: usize) -> Option<usize>
    ensures { IfSome result (λ n. n ≤ 64) }
{
    let words = inputs::word_count(rt).checked_sub(first)?;
    if words == 0 || 64 < words {
        return None;
    }
    Some(words)
}

// Puts so many words from word `first` on into the list, eight bytes each.
fn fill(rt: &HostRuntime, list: &mut [u8], first: usize, words: usize)
    requires { (first ≤ 2) × (words ≤ 64) }
{
    for k in 0..words {
        octets::put(list, 8 * k, &slot_at(rt, first + k));
    }
}

fn main(rt: HostRuntime) {
    let preview = preview_asked(&rt);
    let first = words_before(preview);
    let Some(words) = numbers_from(&rt, first) else {
        return print_usage(&rt);
    };
    let mut list = [0u8; 512];
    fill(&rt, &mut list, first, words);
    // a hint for who waits at a terminal; it changes nothing that follows
    if rt.stdin().is_terminal() {
        print_usage(&rt);
    }
    if let Err(failure) = drop_listed(&rt, preview, &list[..8 * words]) {
        let _ = outputs::write_all(&rt.stderr(), failure.text(*b"drop").bytes());
    }
}
