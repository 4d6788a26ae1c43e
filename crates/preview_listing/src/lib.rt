// The listing of what dropping would leave, for `drop --preview`: made of the preview's directory, so that no archive is written.
#![tactic(auto)]

ghost use Rattle.preview_listing.specs.Text.{ListsLeft};

use listing::Listing;
use refusals::Refusal;

// A refusal, and its line.
#[derive(Clone, Copy)]
pub struct RefusedListing {
    pub refusal: Refusal,
    pub line: Listing,
}

// Lists the jobs that dropping those of a list would leave: what `jobs` would print of the new archive.
pub fn list_left(
    key: &[u8],
    tag_key: &[u8],
    file: &[u8],
    list: &[u8],
) -> Result<Listing, RefusedListing>
    ensures { ListsLeft key.now tag_key.now file.now list.now result }
{
    // room for 64 entries, and no archive has more
    let mut directory = [0u8; 1024];
    match dropping::preview(key, tag_key, file, list, &mut directory) {
        Ok(seen) => {
            let end = 16 * seen.count;
            Ok(listing::list_directory(&directory[..end]))
        }
        Err(refusal) => {
            let line = listing::refusal(u32::from(refusal));
            Err(RefusedListing { refusal, line })
        }
    }
}
