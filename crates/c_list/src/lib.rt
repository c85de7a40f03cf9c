// The face of crate listing.
#![tactic(auto)]

ghost use Rattle.std.specs.Prelude.{◌≡◌, length};
ghost use Rattle.lists.specs.Write.{over};
ghost use Rattle.listing.specs.Listing.{listing};

// Lists the tag of a file into `text`, which has room for every listing, and answers the length of what it wrote. There is no refusal: a
// file of more than 16,384 bytes lists as `refused=1`.
#[unsafe(no_mangle)]
pub extern "C" fn zib_list_tag(file: &[u8], text: &mut [u8; 147473]) -> usize
    ensures { (result ≡ length (listing file.now)) × (text.new ≡ over (listing file.now) text.old) }
{
    listing::list_tag(file, text)
}
