// What the programs read: a file by its name, standard input, and the words that they were started with. An error is told from the end of
// the input.
#![tactic(auto)]

ghost use Rattle.std.specs.Prelude.{◌≡◌, ◌^◌, ◌≤◌, ◌<◌, IfOk, IfErr, length, take};
ghost use Rattle.std.specs.Io.{ReadsAtMost};
ghost use Rattle.inputs.specs.Filled.{IsPrefixLen, Filled, KeyRead, FailsShort, Beyond, length_in, failed_in, read_in, first_in, beyond_in};

use arrayvec::ArrayVec;
use std::env::FillError;
use std::io::{Error, ErrorKind, Read};
use std::rt::{Env, Files};
use std::{fs, io, str};

// A read that failed, and how many bytes were read before it. Within what the contracts say, both are the operating system's choice, as is
// how many bytes are read where none fails.
#[derive(Clone, Copy, Debug)]
pub struct ReadFailed {
    pub length: usize,
    pub error: Error,
}

// How often a read is tried that signals break off.
const TRIES: usize = 1000;

// Linux's EBADF: the descriptor is closed, or not open for reading.
const BAD_DESCRIPTOR: i32 = 9;

// A read, tried again where a signal breaks it off before it read a byte; answers as `Read::read` does.
fn read_tried<R: Read>(reader: &mut R, buf: &mut [u8]) -> io::Result<usize>
    ensures { ReadsAtMost result buf.new }
{
    for _ in 0..TRIES {
        match reader.read(buf) {
            Err(e) if e.kind() == ErrorKind::Interrupted => continue,
            answer => return answer,
        }
    }
    Err(Error::from(ErrorKind::Interrupted))
}

// The same, and copies the bytes over the front of another buffer.
fn read_through<R: Read>(reader: &mut R, chunk: &mut [u8], buf: &mut [u8]) -> io::Result<usize>
    requires { length chunk.old ≤ length buf.old }
    ensures { Filled buf.old (read_in result) buf.new }
{
    let n = read_tried(reader, chunk)?;
    octets::copy(&chunk[..n], buf);
    Ok(n)
}

// One read into the front of a buffer: no bytes in a buffer that has room mean the input's end. It goes through bytes of its own, since a
// read may do anything to bytes that it does not count.
fn read_piece<R: Read>(reader: &mut R, buf: &mut [u8]) -> io::Result<usize>
    ensures { Filled buf.old (read_in result) buf.new }
{
    let mut chunk = [0u8; 4096];
    let most = buf.len().min(4096);
    read_through(reader, &mut chunk[..most], buf)
}

// Reads until the buffer is full, the input ends or a read fails.
fn read_all<R: Read>(reader: &mut R, buf: &mut [u8]) -> Result<usize, ReadFailed>
    ensures filled { Filled buf.old (length_in result) buf.new }
    ensures fails_short { FailsShort (failed_in result) (length_in result) buf.new }
{
    let mut done: usize = 0;
    while done < buf.len() {
        match read_piece(reader, &mut buf[done..]) {
            Ok(0) => return Ok(done),
            Ok(n) => done += n,
            Err(error) => {
                return Err(ReadFailed {
                    length: done,
                    error,
                });
            }
        }
    }
    Ok(done)
}

// Whether an input is none: its first read failed since the descriptor is closed, or not open for reading.
fn is_closed(failed: &ReadFailed) -> bool {
    failed.length == 0 && failed.error.raw_os_error() == Some(BAD_DESCRIPTOR)
}

// Reads standard input to its end, or as much of it as the buffer holds, or until a read fails. One that is closed, or not open for
// reading, counts as empty.
pub fn standard_input(rt: &HostRuntime, buf: &mut [u8]) -> Result<usize, ReadFailed>
    ensures filled { Filled buf.old (length_in result) buf.new }
    ensures fails_short { FailsShort (failed_in result) (length_in result) buf.new }
{
    match read_all(&mut rt.stdin(), buf) {
        Err(failed) if is_closed(&failed) => Ok(failed.length),
        answer => answer,
    }
}

// Opens a file to read it. A path of the standard library is UTF-8: a name that is not cannot be opened.
fn open_read<R: Files>(rt: &R, name: &[u8]) -> io::Result<R::File> {
    let Ok(path) = str::from_utf8(name) else {
        return Err(Error::from(ErrorKind::InvalidFilename));
    };
    fs::open(rt, path)
}

// Whether a name is that of a link.
fn is_link<R: Files>(rt: &R, name: &[u8]) -> bool {
    let Ok(path) = str::from_utf8(name) else {
        return false;
    };
    fs::symlink_metadata(rt, path).is_ok_and(|metadata| metadata.is_symlink())
}

// Opens a file to read it, if there is one. A link that leads nowhere is there, as to a key on a disk that is not. A file that cannot be
// opened counts as one whose first read failed.
fn open_if_there<R: Files>(rt: &R, name: &[u8]) -> Result<Option<R::File>, ReadFailed>
    ensures { IfErr result (λ e. e.length ≡ 0) }
{
    match open_read(rt, name) {
        Ok(file) => Ok(Some(file)),
        Err(e) if e.kind() == ErrorKind::NotFound && !is_link(rt, name) => Ok(None),
        Err(error) => Err(ReadFailed { length: 0, error }),
    }
}

// Reads a file to its end, or as much of it as the buffer holds, or until a read fails. A file that is missing counts as empty; one that
// cannot be opened counts as one whose first read failed.
pub fn named_input<R: Files>(rt: &R, name: &[u8], buf: &mut [u8]) -> Result<usize, ReadFailed>
    ensures { Filled buf.old (length_in result) buf.new }
{
    let Some(mut file) = open_if_there(rt, name)? else {
        return Ok(0);
    };
    read_all(&mut file, buf)
}

// Reads a file to its end, or as much of it as the buffer holds, and answers how many bytes that is. A file that is missing counts as
// empty; one that cannot be read counts as one that fills the buffer, whatever was read of it. So a caller lends one byte more than the
// longest file that it takes, and never takes a file for one that was read to its end when it was not.
pub fn named_file<R: Files>(rt: &R, name: &[u8], buf: &mut [u8]) -> usize
    ensures { Filled buf.old result buf.new }
{
    named_input(rt, name, buf).unwrap_or(buf.len())
}

// The bytes of a key file: one more than the longest key, so that a file which is longer, or cannot be read, is no key.
pub type KeyFile = ArrayVec<u8, 33>;

// The first n bytes of a buffer.
fn key_bytes(buffer: [u8; 33], n: usize) -> KeyFile
    ensures { result.items ≡ take n buffer }
{
    let mut bytes = KeyFile::from(buffer);
    bytes.truncate(n);
    bytes
}

// Reads a key file.
pub fn key_file<R: Files>(rt: &R, name: &[u8]) -> KeyFile
    ensures read { KeyRead result.items }
    ensures fits { length result.items ≤ 33 }
{
    let mut buffer = [0u8; 33];
    let n = named_file(rt, name, &mut buffer);
    key_bytes(buffer, n)
}

// What was read of a file: its first bytes, and how many more it has, by the remainder modulo 12.
#[derive(Clone, Copy, Debug, PartialEq, Eq)]
pub struct Counted {
    pub length: usize,
    pub beyond: usize,
}

// How many chunks are counted, 17 terabytes of them; a file that is longer, as a device may be, counts as one that cannot be read.
const CHUNKS: usize = 4294967296;

// Reads to the end, and answers how many bytes that were, by the remainder modulo 12, which divides a chunk.
fn count_rest<R: Read>(reader: &mut R) -> io::Result<usize>
    ensures { IfOk result (λ n. n < 12) }
{
    let mut chunk = [0u8; 4092];
    for _ in 0..CHUNKS {
        let n = read_all(reader, &mut chunk).map_err(|failed| failed.error)?;
        if n < 4092 {
            return Ok(n % 12);
        }
    }
    Err(Error::from(ErrorKind::FileTooLarge))
}

// Reads a file into a buffer until it is full or the file ends or a read fails, and then counts what is beyond.
fn read_counted<R: Read>(reader: &mut R, buf: &mut [u8]) -> Result<Counted, ReadFailed>
    ensures filled { Filled buf.old (first_in result) buf.new }
    ensures beyond { Beyond (first_in result) (beyond_in result) buf.new }
{
    let length = read_all(reader, buf)?;
    if length < buf.len() {
        return Ok(Counted { length, beyond: 0 });
    }
    let beyond = count_rest(reader).map_err(|error| ReadFailed { length, error })?;
    Ok(Counted { length, beyond })
}

// Reads a file to its end, however long it is: its first bytes into the buffer, and of the rest how many bytes they are, by the remainder
// modulo 12, the length of a sheet's line. A file that is missing counts as empty; one that cannot be opened counts as one whose first
// read failed.
pub fn counted_file<R: Files>(rt: &R, name: &[u8], buf: &mut [u8]) -> Result<Counted, ReadFailed>
    ensures filled { Filled buf.old (first_in result) buf.new }
    ensures beyond { Beyond (first_in result) (beyond_in result) buf.new }
{
    let Some(mut file) = open_if_there(rt, name)? else {
        return Ok(Counted {
            length: 0,
            beyond: 0,
        });
    };
    read_counted(&mut file, buf)
}

// Whether the program was started with a word i; word 0 is its own name.
fn has_word<E: Env>(rt: &E, i: usize) -> bool {
    let mut word = [0u8; 1];
    !matches!(rt.arg(i, &mut word), Err(FillError::NotPresent))
}

// How many words the program was started with, its own name among them: the operating system's choice.
pub fn word_count<E: Env>(rt: &E) -> usize
    ensures { result < 2 ^ 64 }
{
    (0..usize::MAX)
        .find(|i| !has_word(rt, *i))
        .unwrap_or(usize::MAX)
}

// Puts word i at the front of a buffer and answers its length, or 0 where it is missing or longer than the buffer.
pub fn word<E: Env>(rt: &E, i: usize, buf: &mut [u8]) -> usize
    ensures { IsPrefixLen result buf.new }
{
    rt.arg(i, buf).unwrap_or(0)
}
