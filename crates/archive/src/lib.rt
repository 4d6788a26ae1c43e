// The archive: checking it, its directory, finding a job, its sealed body. Each call begins with the whole check of keys and file. No call
// copies the file.
#![tactic(auto)]

ghost use Rattle.std.specs.Prelude.{◌≡◌};
ghost use Rattle.refusals.specs.Numbers.{answer_of};
ghost use Rattle.archive.specs.Check.{check_of, GivesDirectory};
ghost use Rattle.archive.specs.Find.{Finds, GivesBody};

use octets::part;
use refusals::Refusal;

// Checks an archive: the job count.
pub fn check(key: &[u8], tag_key: &[u8], file: &[u8]) -> Result<usize, Refusal>
    ensures { answer_of result ≡ check_of key.now tag_key.now file.now }
{
    admission::admit(key, tag_key, file)
        .map(|_| header::count(file))
        .map_err(|refused| refused.refusal)
}

// The directory of an archive (01's contents), as a part of the file; empty where checking refuses.
pub fn directory<'a>(key: &[u8], tag_key: &[u8], file: &'a [u8]) -> &'a [u8]
    ensures { GivesDirectory key.now tag_key.now file.entry result }
{
    let Ok(_) = admission::admit(key, tag_key, file) else {
        return part(file, 0, 0);
    };
    header::directory(file)
}

// Finds a job: its index in the directory.
pub fn find(key: &[u8], tag_key: &[u8], file: &[u8], number: &[u8]) -> Result<usize, Refusal>
    ensures { Finds key.now tag_key.now file.now number.now (answer_of result) }
{
    admission::admit(key, tag_key, file)?;
    bodies::lookup(file, number)
}

// The sealed body of a job, as a part of the file; empty where finding refuses.
pub fn body<'a>(key: &[u8], tag_key: &[u8], file: &'a [u8], number: &[u8]) -> &'a [u8]
    ensures { GivesBody key.now tag_key.now file.entry number.now result }
{
    match find(key, tag_key, file, number) {
        Ok(i) => bodies::body_at(file, i),
        Err(_) => part(file, 0, 0),
    }
}
