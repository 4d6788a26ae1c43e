// Runs the readings of 01, Plate readings, that are not marked P, 24 for 7 in one of them by 02, d: files on both sides of the limits of
// checking, under a good key, each good but for what its line names. Prints what checking answered. Then makes each other call of `archive`
// and `opening` on the sample archive, for jobs that are there and for one that is not, and opens once more into a buffer that is a byte
// short; and opens ranges, on both sides of the job's end and of the buffer's. Then checks the tagged sample and the other under tag keys
// that fit and that do not, and the tagged one with a bit changed, and makes the same calls on it. Then seals, refused by each case, and
// the jobs of the samples, which gives both archives again. Then searches bare directories, also such as no archive has. Then runs the
// block of RFC 5794, A.1, by each engine as `engines::run_by` picks it. Then tags the front of the sample archive, and compares tags,
// under the key and under schedules.
// tests/known_answers/make_expected.py makes the stored output from the model of the archive and from libcrypto. The readings marked P are
// `readings_hold` of crate `readings`.
#![tactic(auto)]

use circuit::Schedule;
use engines::Engine;
use hexbytes::Hex;
use refusals::Refusal;

// The key of RFC 5794, A.1.
const KEY: [u8; 16] = [0, 1, 2, 3, 4, 5, 6, 7, 8, 9, 10, 11, 12, 13, 14, 15];

// The plain block of RFC 5794, appendix A.
const RFC_BLOCK: [u8; 16] = [
    0x00, 0x11, 0x22, 0x33, 0x44, 0x55, 0x66, 0x77, 0x88, 0x99, 0xaa, 0xbb, 0xcc, 0xdd, 0xee, 0xff,
];

// Bytes that are a text.
fn print(rt: &HostRuntime, text: &[u8]) {
    let _ = rt.write_all(text);
}

// A line: the case, and bytes.
fn print_line(rt: &HostRuntime, case: &str, bytes: &[u8]) {
    let _ = println!(rt; "{case}{}", Hex(bytes));
}

// A text, and what a call answers: a number after a word of its own, or the refusal.
fn print_answer(rt: &HostRuntime, text: &str, word: &str, answer: Result<usize, Refusal>) {
    let _ = match answer {
        Ok(n) => print!(rt; "{text}{word} {n}"),
        Err(refusal) => print!(rt; "{text}refused {}", u32::from(refusal)),
    };
}

fn byte(n: usize) -> u8 {
    (n % 256) as u8
}

// A file that begins with a header and has room for more than the longest archive. The key check is that of the key, by libcrypto.
fn headed(layout: u8, jobs: u8, size: usize) -> [u8; 65537] {
    let mut file = [0u8; 65537];
    let front = [
        layout, 16, 0, jobs, 0, 0, 0, 7, 0x68, 0x5c, 0x67, 0x8e, 0x54, 0x5d, 0x7b, 0x37,
    ];
    blocks::store(front, &mut file[0..16]);
    file[17] = byte(size / 65536);
    file[18] = byte(size / 256);
    file[19] = byte(size);
    file
}

// The directory entry of job 240000ii, of no bytes.
fn entry(i: u8, start: usize) -> [u8; 16] {
    let tens = b'0' + i / 10;
    let ones = b'0' + i % 10;
    let high = byte(start / 256);
    let low = byte(start);
    [
        b'2', b'4', b'0', b'0', b'0', b'0', tens, ones, 0, 0, high, low, 0, 0, 0, 0,
    ]
}

// A file that begins with an archive of so many jobs.
fn archived(jobs: u8) -> [u8; 65537] {
    let end = 20 + 16 * (jobs as usize);
    let mut file = headed(1, jobs, end);
    for i in 0..jobs {
        blocks::store(entry(i, end), &mut file[20 + 16 * usize::from(i)..]);
    }
    file
}

// A line: the case, and what checking answers.
fn print_check(rt: &HostRuntime, case: &str, tag_key: &[u8], file: &[u8]) {
    print_answer(rt, case, "jobs", archive::check(&KEY, tag_key, file));
    print(rt, b"\n");
}

fn short_file(rt: &HostRuntime) {
    let file = headed(1, 0, 19);
    print_check(rt, "19 bytes: ", b"", &file[0..19]);
}

fn layout_2(rt: &HostRuntime) {
    let file = headed(2, 0, 20);
    print_check(rt, "20 bytes with layout 2: ", b"", &file[0..20]);
}

fn long_file(rt: &HostRuntime) {
    let file = headed(1, 0, 65537);
    print_check(rt, "65537 bytes: ", b"", &file);
}

fn count_64(rt: &HostRuntime) {
    let file = archived(64);
    print_check(rt, "count 64: ", b"", &file[0..1044]);
}

fn count_65(rt: &HostRuntime) {
    let file = archived(65);
    print_check(rt, "count 65: ", b"", &file[0..1060]);
}

// The archive that docs/FORMAT.md works byte by byte, examples/sample/archive.bin: two jobs, of `dried` and of no bytes.
fn sample_file() -> [u8; 57] {
    let mut file = [0u8; 57];
    octets::put(
        &mut file,
        0,
        b"\x01\x10\x00\x02\x00\x00\x00\x07\x68\x5c\x67\x8e\x54\x5d\x7b\x37\x00\x00\x00\x39",
    );
    octets::put(&mut file, 20, b"24000017\x00\x00\x00\x34\x00\x00\x00\x05");
    octets::put(&mut file, 36, b"24000018\x00\x00\x00\x39\x00\x00\x00\x00");
    octets::put(&mut file, 52, b"\x71\xa8\x93\x2a\xa6");
    file
}

// The end of a line: what finding or a search answers.
fn print_place(rt: &HostRuntime, found: Result<usize, Refusal>) {
    print_answer(rt, ": ", "index", found);
    print(rt, b"\n");
}

fn print_found(rt: &HostRuntime, key: &[u8], tag_key: &[u8], file: &[u8], number: &[u8]) {
    print(rt, b"find ");
    print(rt, number);
    print_place(rt, archive::find(key, tag_key, file, number));
}

fn print_body(rt: &HostRuntime, key: &[u8], tag_key: &[u8], file: &[u8], number: &[u8]) {
    print(rt, b"body of ");
    print(rt, number);
    let body = archive::body(key, tag_key, file, number);
    let _ = println!(rt; ": '{}'", Hex(body));
}

// The end of a line: what opening or sealing answers, and the buffer whole.
fn print_written(rt: &HostRuntime, answer: Result<usize, Refusal>, buffer: &[u8]) {
    print_answer(rt, " bytes: ", "bytes", answer);
    print_line(rt, ", buffer ", buffer);
}

fn print_opened(
    rt: &HostRuntime,
    key: &[u8],
    tag_key: &[u8],
    file: &[u8],
    number: &[u8],
    buffer: &mut [u8],
) {
    print(rt, b"open ");
    print(rt, number);
    let _ = print!(rt; " in {}", buffer.len());
    let opened = opening::open(key, tag_key, file, number, buffer);
    print_written(rt, opened, buffer);
}

fn print_range(
    rt: &HostRuntime,
    key: &[u8],
    tag_key: &[u8],
    file: &[u8],
    number: &[u8],
    first: usize,
    count: usize,
    buffer: &mut [u8],
) {
    print(rt, b"open ");
    print(rt, number);
    let _ = print!(rt; " from {first}, count {count}, in {}", buffer.len());
    let opened = opening::open_range(key, tag_key, file, number, first, count, buffer);
    print_written(rt, opened, buffer);
}

// A job that is not there, and the one of five bytes. A buffer keeps what it had where the job is not there, past the plain bytes, and
// where it is too short.
fn open_jobs(rt: &HostRuntime, key: &[u8], tag_key: &[u8], file: &[u8]) {
    let mut room = [b'.'; 8];
    print_opened(rt, key, tag_key, file, b"24000019", &mut room);
    print_opened(rt, key, tag_key, file, b"24000017", &mut room);
    let mut short = [b'.'; 4];
    print_opened(rt, key, tag_key, file, b"24000017", &mut short);
}

// Ranges of the job of five bytes: within it, to its very end, past it, by sums of 2^64 too; and of a job that is not there.
fn open_ranges(rt: &HostRuntime, key: &[u8], tag_key: &[u8], file: &[u8]) {
    let mut room = [b'.'; 8];
    print_range(rt, key, tag_key, file, b"24000017", 5, 1, &mut room);
    print_range(
        rt,
        key,
        tag_key,
        file,
        b"24000017",
        18446744073709551615,
        1,
        &mut room,
    );
    print_range(
        rt,
        key,
        tag_key,
        file,
        b"24000017",
        1,
        18446744073709551615,
        &mut room,
    );
    print_range(rt, key, tag_key, file, b"24000019", 9, 9, &mut room);
    print_range(rt, key, tag_key, file, b"24000017", 1, 3, &mut room);
    print_range(rt, key, tag_key, file, b"24000017", 5, 0, &mut room);
}

// A buffer that has room for less than the range: it keeps what it had. A range that passes the job's end is told first.
fn open_ranges_short(rt: &HostRuntime, key: &[u8], tag_key: &[u8], file: &[u8]) {
    let mut short = [b'.'; 2];
    print_range(rt, key, tag_key, file, b"24000017", 1, 3, &mut short);
    print_range(rt, key, tag_key, file, b"24000017", 1, 5, &mut short);
    print_range(rt, key, tag_key, file, b"24000017", 3, 2, &mut short);
}

// Each call on a sample, for jobs that are there, the index of the second not being 0, and for one that is not.
fn sample_calls(rt: &HostRuntime, key: &[u8], tag_key: &[u8], file: &[u8]) {
    print_found(rt, key, tag_key, file, b"24000018");
    print_found(rt, key, tag_key, file, b"24000019");
    print_line(rt, "directory: ", archive::directory(key, tag_key, file));
    print_body(rt, key, tag_key, file, b"24000017");
    print_body(rt, key, tag_key, file, b"24000019");
    open_jobs(rt, key, tag_key, file);
    open_ranges(rt, key, tag_key, file);
    open_ranges_short(rt, key, tag_key, file);
}

// The archive of layout 2 that docs/FORMAT.md works byte by byte, examples/tagged/archive.bin: the same jobs, and the tag.
fn tagged_file() -> [u8; 73] {
    let untagged = sample_file();
    let mut file = [0u8; 73];
    octets::put(&mut file, 0, &untagged);
    octets::put(&mut file, 0, b"\x02");
    octets::put(&mut file, 19, b"\x49");
    octets::put(
        &mut file,
        57,
        b"\x1b\xe9\xd3\x98\xb9\xc7\x66\x3e\x4e\xc3\x45\x11\xc4\x34\xe3\x87",
    );
    file
}

// Its tag key, and a byte more.
fn tag_bytes() -> [u8; 33] {
    let mut bytes = [0u8; 33];
    octets::put(
        &mut bytes,
        0,
        b"\x10\x11\x12\x13\x14\x15\x16\x17\x18\x19\x1a\x1b\x1c\x1d\x1e\x1f",
    );
    octets::put(
        &mut bytes,
        16,
        b"\x20\x21\x22\x23\x24\x25\x26\x27\x28\x29\x2a\x2b\x2c\x2d\x2e\x2f\x30",
    );
    bytes
}

// The tagged sample under no tag key, under ones of a wrong length, under another and under its own; and the other sample under a tag key.
fn tag_keys(rt: &HostRuntime, key: &[u8], tag_key: &[u8], file: &[u8], untagged: &[u8]) {
    print_check(rt, "tagged, no tag key: ", b"", file);
    print_check(rt, "tagged, 33 bytes of tag key: ", tag_key, file);
    print_check(
        rt,
        "tagged, 31 bytes of tag key: ",
        octets::part(tag_key, 0, 31),
        file,
    );
    print_check(rt, "tagged, under the key: ", key, file);
    print_check(rt, "tagged: ", octets::part(tag_key, 0, 32), file);
    print_check(
        rt,
        "layout 1 under a tag key: ",
        octets::part(tag_key, 0, 32),
        untagged,
    );
}

// The tagged sample with a bit of a byte changed.
fn bit_changed(at: usize) -> [u8; 73] {
    let mut file = tagged_file();
    let byte = [octets::byte_at(&file, at) as u8 ^ 1];
    octets::put(&mut file, at, &byte);
    file
}

// The tagged sample with a bit changed of its tag, of a body, and of the archive number.
fn tagged_changes(rt: &HostRuntime, tag_key: &[u8]) {
    let tag = bit_changed(72);
    print_check(rt, "tagged, its last bit changed: ", tag_key, &tag);
    let body = bit_changed(56);
    print_check(rt, "tagged, a bit of the body changed: ", tag_key, &body);
    let number = bit_changed(7);
    print_check(
        rt,
        "tagged, a bit of the archive number changed: ",
        tag_key,
        &number,
    );
}

// The calls on the tagged sample.
fn tagged_sample(rt: &HostRuntime, key: &[u8], untagged: &[u8]) {
    let file = tagged_file();
    let bytes = tag_bytes();
    tag_keys(rt, key, &bytes, &file, untagged);
    let tag_key = octets::part(&bytes, 0, 32);
    tagged_changes(rt, tag_key);
    sample_calls(rt, key, tag_key, &file);
}

// A line: the case, the buffer's length, what sealing answers, and the buffer whole.
fn print_sealed(
    rt: &HostRuntime,
    case: &str,
    key_file: &[u8],
    tag_key: &[u8],
    sheet: &[u8],
    plain: &[u8],
    buffer: &mut [u8],
) {
    let _ = print!(rt; "{case} in {}", buffer.len());
    let sealed = sealing::seal(key_file, tag_key, sheet, plain, buffer);
    print_written(rt, sealed, buffer);
}

// The sheet of both samples.
fn sample_sheet() -> [u8; 29] {
    let mut sheet = [0u8; 29];
    octets::put(&mut sheet, 0, b"\x10\x00\x00\x00\x07");
    octets::put(&mut sheet, 5, b"24000017\x00\x00\x00\x05");
    octets::put(&mut sheet, 17, b"24000018\x00\x00\x00\x00");
    sheet
}

// That sheet with other bytes at a place.
fn sheet_with(at: usize, bytes: &[u8]) -> [u8; 29] {
    let mut sheet = sample_sheet();
    octets::put(&mut sheet, at, bytes);
    sheet
}

// Lines of one number, 65 of them and 64.
fn seal_equal_lines(rt: &HostRuntime, key: &[u8], buffer: &mut [u8]) {
    let mut sheet = [b'0'; 785];
    let front = sample_sheet();
    octets::put(&mut sheet, 0, octets::part(&front, 0, 5));
    print_sealed(rt, "seal, 65 lines", key, b"", &sheet, b"dried", buffer);
    print_sealed(
        rt,
        "seal, 64 lines of one number",
        key,
        b"",
        octets::part(&sheet, 0, 773),
        b"dried",
        buffer,
    );
}

// A number with a byte that is no digit, and one that is above the next.
fn seal_lines(rt: &HostRuntime, key: &[u8], buffer: &mut [u8]) {
    let number = sheet_with(12, b"/");
    print_sealed(
        rt,
        "seal, number 2400001/",
        key,
        b"",
        &number,
        b"dried",
        buffer,
    );
    let order = sheet_with(12, b"9");
    print_sealed(
        rt,
        "seal, 24000019 before 24000018",
        key,
        b"",
        &order,
        b"dried",
        buffer,
    );
}

// Sheets of a wrong length, with a wrong key length, and for an archive that is a byte too long.
fn seal_sheets(rt: &HostRuntime, key: &[u8], buffer: &mut [u8]) {
    let sheet = sample_sheet();
    print_sealed(
        rt,
        "seal, 28 bytes of sheet",
        key,
        b"",
        octets::part(&sheet, 0, 28),
        b"dried",
        buffer,
    );
    let length = sheet_with(0, b"\x11");
    print_sealed(
        rt,
        "seal, key length 17",
        key,
        b"",
        &length,
        b"dried",
        buffer,
    );
    let long = sheet_with(25, b"\x00\x00\xff\xc8");
    print_sealed(
        rt,
        "seal, 65537 bytes of archive",
        key,
        b"",
        &long,
        b"dried",
        buffer,
    );
}

// Keys that are refused: too few bytes for the sheet's length, and a tag key of a wrong length.
fn seal_keys(rt: &HostRuntime, key: &[u8], tag_key: &[u8], buffer: &mut [u8]) {
    let sheet = sample_sheet();
    print_sealed(
        rt,
        "seal, 15 bytes of key file",
        octets::part(key, 0, 15),
        b"",
        &sheet,
        b"dried",
        buffer,
    );
    print_sealed(
        rt,
        "seal, 33 bytes of tag key",
        key,
        tag_key,
        &sheet,
        b"dried",
        buffer,
    );
}

// Plain bytes too few and too many.
fn seal_plains(rt: &HostRuntime, key: &[u8], buffer: &mut [u8]) {
    let sheet = sample_sheet();
    print_sealed(rt, "seal, 4 plain bytes", key, b"", &sheet, b"drie", buffer);
    print_sealed(
        rt,
        "seal, 6 plain bytes",
        key,
        b"",
        &sheet,
        b"dried.",
        buffer,
    );
}

// The samples, each in a buffer that is a byte short and keeps what it had, and in one that has room.
fn seal_samples(rt: &HostRuntime, key: &[u8], tag_key: &[u8], buffer: &mut [u8]) {
    let sheet = sample_sheet();
    let mut short = [b'.'; 56];
    print_sealed(
        rt,
        "seal, the sample",
        key,
        b"",
        &sheet,
        b"dried",
        &mut short,
    );
    print_sealed(rt, "seal, the sample", key, b"", &sheet, b"dried", buffer);
    let mut tagged_short = [b'.'; 72];
    print_sealed(
        rt,
        "seal, the tagged sample",
        key,
        tag_key,
        &sheet,
        b"dried",
        &mut tagged_short,
    );
    let mut tagged = [b'.'; 74];
    print_sealed(
        rt,
        "seal, the tagged sample",
        key,
        tag_key,
        &sheet,
        b"dried",
        &mut tagged,
    );
}

// The sample's jobs with this key length on their sheet, into a buffer of its own.
fn seal_key_length(rt: &HostRuntime, case: &str, length: &[u8], key_file: &[u8]) {
    let sheet = sheet_with(0, length);
    let mut buffer = [b'.'; 60];
    print_sealed(rt, case, key_file, b"", &sheet, b"dried", &mut buffer);
}

// Key files that are too short for key length 0, which means 32.
fn seal_short_key_files(rt: &HostRuntime, key_file: &[u8]) {
    let of_16 = octets::part(key_file, 0, 16);
    let of_24 = octets::part(key_file, 0, 24);
    let of_31 = octets::part(key_file, 0, 31);
    seal_key_length(rt, "seal, key length 0, key file of 16", b"\x00", of_16);
    seal_key_length(rt, "seal, key length 0, key file of 24", b"\x00", of_24);
    seal_key_length(rt, "seal, key length 0, key file of 31", b"\x00", of_31);
}

// A key file with a byte more than any key has: under key length 0, under 32, which gives the same, and under 16, which gives the sample.
fn seal_long_key_file(rt: &HostRuntime, key_file: &[u8]) {
    seal_key_length(rt, "seal, key length 0, key file of 33", b"\x00", key_file);
    seal_key_length(rt, "seal, key length 32, key file of 33", b"\x20", key_file);
    seal_key_length(rt, "seal, key length 16, key file of 33", b"\x10", key_file);
}

// The 32 bytes of RFC 5794's longest key, which begins with that of the sample, and a byte more.
fn long_key_file(key: &[u8]) -> [u8; 33] {
    let more = tag_bytes();
    let mut file = [b'.'; 33];
    octets::put(&mut file, 0, key);
    octets::put(&mut file, 16, octets::part(&more, 0, 16));
    file
}

// Key lengths on the sheet, and key files of other lengths.
fn seal_key_lengths(rt: &HostRuntime, key: &[u8]) {
    let file = long_key_file(key);
    seal_short_key_files(rt, &file);
    seal_long_key_file(rt, &file);
}

// The calls of `sealing`. Those that are refused whatever the buffer have one in turn, with room for the sample, which is sealed into it
// then; those about key lengths have each its own.
fn sample_seals(rt: &HostRuntime, key: &[u8]) {
    let bytes = tag_bytes();
    let mut buffer = [b'.'; 60];
    seal_sheets(rt, key, &mut buffer);
    seal_keys(rt, key, &bytes, &mut buffer);
    seal_equal_lines(rt, key, &mut buffer);
    seal_lines(rt, key, &mut buffer);
    seal_plains(rt, key, &mut buffer);
    seal_samples(rt, key, octets::part(&bytes, 0, 32), &mut buffer);
    seal_key_lengths(rt, key);
}

// A line: the number, the bare directory, and what a search of it answers. Of an entry a search looks at the number only.
fn print_search(rt: &HostRuntime, number: &[u8], directory: &[u8]) {
    print(rt, b"search '");
    print(rt, number);
    print(rt, b"' in '");
    print(rt, directory);
    print(rt, b"'");
    print_place(rt, directory::search(directory, number));
}

// Numbers that are not there: below, between and above the entries.
fn search_absent(rt: &HostRuntime) {
    let directory = b"24000017........24000020........";
    print_search(rt, b"24000016", directory);
    print_search(rt, b"24000018", directory);
    print_search(rt, b"24000021", directory);
}

// A directory that does not ascend: what stands after the first entry above the number does not show.
fn search_passed(rt: &HostRuntime) {
    let directory = b"24000017........24000020........24000018........";
    print_search(rt, b"24000017", directory);
    print_search(rt, b"24000018", directory);
    print_search(rt, b"24000020", directory);
}

// An entry above the number before any other, entries below it, and the number twice.
fn search_unordered(rt: &HostRuntime) {
    let directory = b"24000018........24000017........24000018........";
    print_search(rt, b"24000017", directory);
    print_search(rt, b"24000018", directory);
    print_search(
        rt,
        b"24000020",
        b"24000018........24000017........24000020........",
    );
}

// A last part of an entry, no entry, and numbers of other lengths.
fn search_lengths(rt: &HostRuntime) {
    print_search(rt, b"24000018", b"24000017........24000018.......");
    print_search(rt, b"24000017", b"");
    print_search(rt, b"", b"");
    print_search(rt, b"", b"00000000........");
    print_search(rt, b"2400001", b"24000010........");
    print_search(rt, b"240000170", b"24000017........");
}

// Bytes that are no digits: one that counts as 0, one that counts as 11, and one in the number.
fn search_other_bytes(rt: &HostRuntime) {
    print_search(rt, b"24000010", b"2400001/........24000010........");
    print_search(rt, b"24000020", b"2400001;........24000020........");
    print_search(rt, b"2400001/", b"24000010........2400001/........");
}

// Jobs of both spans of years, the old before the new; and the new before the old, as no archive has them.
fn search_years(rt: &HostRuntime) {
    let directory = b"97000004........05000001........";
    print_search(rt, b"97000004", directory);
    print_search(rt, b"05000001", directory);
    print_search(rt, b"70000000", directory);
    print_search(rt, b"69999999", directory);
    let plain = b"05000001........97000004........";
    print_search(rt, b"97000004", plain);
    print_search(rt, b"05000001", plain);
}

// Bytes that are no digits in the year: one that makes it 104, one that makes it 9.
fn search_other_years(rt: &HostRuntime) {
    print_search(rt, b"24000017", b":4000000........24000017........");
    print_search(rt, b"24000017", b"/9000000........24000017........");
}

// A line: the engine, and what it makes of the block under the schedule of the key.
fn print_run(rt: &HostRuntime, case: &str, engine: Engine) {
    let mut block = RFC_BLOCK;
    if let Ok(prepared) = preparation::prepare(&KEY) {
        let _ = engines::run_by(engine, prepared.schedule, &mut block);
        print_line(rt, case, &block);
    }
}

// A line: the case, the number of what tagging answers, and the tag, zero bytes where there is none.
fn print_tagged(rt: &HostRuntime, case: &str, tagged: Result<[u8; 16], Refusal>) {
    let tag = tagged.unwrap_or([0; 16]);
    let _ = println!(rt; "{case}{}, tag {}", refusals::number_of(tagged), Hex(&tag));
}

// Tags of the front of a file: of no bytes, of less than a block, a block, two blocks, and three and less than a fourth.
fn tag_lengths(rt: &HostRuntime, key: &[u8], file: &[u8]) {
    print_tagged(
        rt,
        "cmac, 0 bytes: ",
        cmac::tag(key, octets::part(file, 0, 0)),
    );
    print_tagged(
        rt,
        "cmac, 15 bytes: ",
        cmac::tag(key, octets::part(file, 0, 15)),
    );
    print_tagged(
        rt,
        "cmac, 16 bytes: ",
        cmac::tag(key, octets::part(file, 0, 16)),
    );
    print_tagged(
        rt,
        "cmac, 32 bytes: ",
        cmac::tag(key, octets::part(file, 0, 32)),
    );
    print_tagged(rt, "cmac, 57 bytes: ", cmac::tag(key, file));
}

// The same under a schedule, under one of 13 rounds, and under a key of 15 bytes.
fn tag_refusals(rt: &HostRuntime, key: &[u8], good: Schedule, bad: Schedule, file: &[u8]) {
    print_tagged(rt, "cmac under a schedule: ", cmac::tag_under(good, file));
    print_tagged(rt, "cmac under 13 rounds: ", cmac::tag_under(bad, file));
    print_tagged(
        rt,
        "cmac under 15 bytes of key: ",
        cmac::tag(octets::part(key, 0, 15), file),
    );
}

// A line: the case, and the number of what a comparison answers.
fn print_verdict(rt: &HostRuntime, case: &str, verdict: Result<(), Refusal>) {
    let _ = println!(rt; "{case}{}", refusals::number_of(verdict));
}

// Comparisons under a key: with the tag, with another, with a byte too few, and so with a bad key as well.
fn verify_by_key(rt: &HostRuntime, key: &[u8], file: &[u8], tag: &[u8], other: &[u8]) {
    let short = octets::part(tag, 0, 15);
    print_verdict(rt, "verify, the tag: ", cmac::verify(key, file, tag));
    print_verdict(
        rt,
        "verify, its last bit changed: ",
        cmac::verify(key, file, other),
    );
    print_verdict(
        rt,
        "verify, 15 bytes of it: ",
        cmac::verify(key, file, short),
    );
    print_verdict(
        rt,
        "verify, 15 bytes of key and tag: ",
        cmac::verify(octets::part(key, 0, 15), file, short),
    );
}

// The same under schedules, of which one has 13 rounds.
fn verify_by_schedule(
    rt: &HostRuntime,
    good: Schedule,
    bad: Schedule,
    file: &[u8],
    tag: &[u8],
    other: &[u8],
) {
    let short = octets::part(tag, 0, 15);
    print_verdict(
        rt,
        "verify under a schedule, the tag: ",
        cmac::verify_under(good, file, tag),
    );
    print_verdict(
        rt,
        "verify under a schedule, its last bit changed: ",
        cmac::verify_under(good, file, other),
    );
    print_verdict(
        rt,
        "verify under a schedule, 15 bytes of it: ",
        cmac::verify_under(good, file, short),
    );
    print_verdict(
        rt,
        "verify under 13 rounds, 15 bytes of it: ",
        cmac::verify_under(bad, file, short),
    );
}

// The last bit of a tag changed.
fn changed(tag: [u8; 16]) -> [u8; 16] {
    let mut out = tag;
    out[15] ^= 1;
    out
}

// The calls of `cmac`, by the key and by its schedule, and by that with another round count.
fn sample_tags(rt: &HostRuntime, key: &[u8], file: &[u8]) -> Result<(), Refusal> {
    let good = preparation::prepare(key)?.schedule;
    let bad = Schedule { rounds: 13, ..good };
    let tag = cmac::tag(key, file)?;
    let other = changed(tag);
    tag_lengths(rt, key, file);
    tag_refusals(rt, key, good, bad, file);
    verify_by_key(rt, key, file, &tag, &other);
    verify_by_schedule(rt, good, bad, file, &tag, &other);
    Ok(())
}

fn main(rt: HostRuntime) {
    short_file(&rt);
    layout_2(&rt);
    long_file(&rt);
    count_64(&rt);
    count_65(&rt);
    let file = sample_file();
    sample_calls(&rt, &KEY, b"", &file);
    tagged_sample(&rt, &KEY, &file);
    sample_seals(&rt, &KEY);
    search_absent(&rt);
    search_passed(&rt);
    search_unordered(&rt);
    search_lengths(&rt);
    search_other_bytes(&rt);
    search_years(&rt);
    search_other_years(&rt);
    print_run(&rt, "plain, RFC 5794 A.1: ", Engine::Plain);
    print_run(&rt, "tables, RFC 5794 A.1: ", Engine::Tables);
    let _ = sample_tags(&rt, &KEY, &file);
}
