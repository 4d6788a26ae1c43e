// Seals the jobs of sheet.bin into an archive: their plain bytes end to end on standard input, under the key that key.bin begins with and
// the tag key in tag.bin. Standard output has the archive or the line of a refusal: what goes wrong outside is said on standard error, and
// then there is no archive; where writing failed, what went out is none.
#![tactic(auto)]

ghost use Rattle.std.specs.Prelude.{◌≤◌};
ghost use Rattle.inputs.specs.Filled.{length_in};

use inputs::ReadFailed;
use programs::Failure;
use std::io::IsTerminal;

fn print_usage(rt: &HostRuntime) {
    let _ = outputs::write_all(&rt.stderr(), b"usage: seal < PLAIN > ARCHIVE\n");
    let _ = outputs::write_all(
        &rt.stderr(),
        b"seals the jobs of sheet.bin, their plain bytes end to end on standard input, ",
    );
    let _ = outputs::write_all(
        &rt.stderr(),
        b"under key.bin of this folder and, if there, tag.bin\n",
    );
}

// Seals and writes the archive, or the line of the refusal.
fn write_archive(
    rt: &HostRuntime,
    key_file: &[u8],
    tag_key: &[u8],
    sheet: &[u8],
    plain: &[u8],
) -> Result<(), Failure> {
    // no archive is longer
    let mut archive = [0u8; 65536];
    let sealed: Result<usize, refusals::Refusal> = sealing::seal(
        key_file,
        tag_key,
        sheet,
        plain,
        &mut archive,
    );
    match sealed {
        Ok(n) => outputs::write_all(&rt.stdout(), &archive[..n])?,
        Err(refusal) => outputs::write_all(
            &rt.stdout(),
            listing::refusal(u32::from(refusal)).bytes(),
        )?,
    }
    Ok(())
}

// How much of a key file was read: nothing of one that cannot be, so that it is no key. Bytes past the longest key do not matter.
fn key_length(read: Result<usize, ReadFailed>) -> usize
    ensures { result ≤ length_in read }
{
    read.unwrap_or(0)
}

// Reads the keys and the plain bytes, and seals the jobs of a sheet.
fn seal_sheet(rt: &HostRuntime, sheet: &[u8]) -> Result<(), Failure> {
    let mut key = [0u8; 32];
    let k = key_length(inputs::named_input(rt, b"key.bin", &mut key));
    let tag_key = programs::key_file(rt, b"tag.bin");
    // one byte more than the longest archive, so more than any archive has plain bytes: how many more does not matter
    let mut plain = [0u8; 65537];
    let n = inputs::standard_input(rt, &mut plain)?;
    write_archive(rt, &key[..k], &tag_key, sheet, &plain[..n])
}

// Reads the sheet, and seals its jobs.
fn seal(rt: &HostRuntime) -> Result<(), Failure> {
    // five bytes, one line more than any archive has jobs, and eleven bytes more; what is beyond is counted
    let mut sheet = [0u8; 796];
    let Ok(counted) = inputs::counted_file(rt, b"sheet.bin", &mut sheet) else {
        return Err(Failure::ReadSheet);
    };
    let n = sheet::handed_on(counted.length, counted.beyond);
    seal_sheet(rt, &sheet[..n])
}

fn main(rt: HostRuntime) {
    // a hint for who waits at a terminal, or typed words that are not taken; it changes nothing that follows
    if inputs::word_count(&rt) > 1 || rt.stdin().is_terminal() {
        print_usage(&rt);
    }
    if let Err(failure) = seal(&rt) {
        let _ = outputs::write_all(&rt.stderr(), failure.text(*b"seal").bytes());
    }
}
