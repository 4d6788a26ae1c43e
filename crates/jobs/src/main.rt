// Prints the jobs of the archive on standard input, under the key in key.bin and the tag key in tag.bin. Standard output has the listing or
// the line of a refusal, and else nothing: what goes wrong outside the archive is said on standard error.
#![tactic(auto)]

use programs::Failure;
use std::io::IsTerminal;

fn print_usage(rt: &HostRuntime) {
    let _ = outputs::write_all(&rt.stderr(), b"usage: jobs < ARCHIVE\n");
    let _ = outputs::write_all(
        &rt.stderr(),
        b"lists the archive's jobs, under the key in key.bin of this folder and the tag key in tag.bin, if there is one\n",
    );
}

// Reads the keys and the archive, and writes the listing.
fn list(rt: &HostRuntime) -> Result<(), Failure> {
    let key = programs::key_file(rt, b"key.bin");
    let tag_key = programs::key_file(rt, b"tag.bin");
    // one byte more than the longest archive
    let mut file = [0u8; 65537];
    let n = inputs::standard_input(rt, &mut file)?;
    outputs::write_all(
        &rt.stdout(),
        listing::list(&key, &tag_key, &file[..n]).bytes(),
    )?;
    Ok(())
}

fn main(rt: HostRuntime) {
    // a hint for who waits at a terminal, or typed words that are not taken; it changes nothing that follows
    if inputs::word_count(&rt) > 1 || rt.stdin().is_terminal() {
        print_usage(&rt);
    }
    if let Err(failure) = list(&rt) {
        let _ = outputs::write_all(&rt.stderr(), failure.text(*b"jobs").bytes());
    }
}
