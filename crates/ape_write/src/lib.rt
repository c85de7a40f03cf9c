// A tag written: serialize_ape_tag.
#![tactic(auto)]

ghost use Rattle.std.specs.Prelude.{◌≡◌, true, ◌≤◌, ◌+◌, length};
ghost use Rattle.lists.specs.Choice.{is_some};
ghost use Rattle.lists.specs.Write.{over};
ghost use Rattle.items.specs.Items.{parse, items_in};
ghost use Rattle.ape.specs.Tag.{block_bytes, serialize};
ghost use Rattle.ape_write.specs.Answers.{tag_parts, tag_length, serialize_plan, written_answer, written_bytes};

use replies::Refusal;

// The flags of a header and of a footer: bit 31, the tag has a header; bit 29, this is it.
pub const HEADER_FLAGS: u32 = 0xA000_0000;

pub const FOOTER_FLAGS: u32 = 0x8000_0000;

// Writes the 32 bytes of a header or a footer to the front of `out`.
pub fn put_block(out: &mut [u8], size: u32, count: u32, flags: u32)
    requires { 32 ≤ length out.old }
    ensures { out.new ≡ over (block_bytes size count flags) out.old }
{
    let a = lists::put(out, 0, &frame::APE_PREAMBLE);
    let b = lists::put_u32_le(out, a, ape::APE_VERSION);
    let c = lists::put_u32_le(out, b, size);
    let d = lists::put_u32_le(out, c, count);
    let e = lists::put_u32_le(out, d, flags);
    lists::put(out, e, b"\0\0\0\0\0\0\0\0");
}

// How long the tag of so many items with so many bytes is.
pub fn tag_length(length: usize, count: usize) -> usize
    requires { length ≤ 9223372036854775807 }
    ensures { result ≡ tag_length length count }
{
    if count == 0 {
        return 0;
    }
    length + 64
}

// Writes a header, the items and a footer to the front of `out`, each into the rest of it.
fn put_parts(out: &mut [u8], area: &[u8], count: u32)
    requires { (length area.now ≤ 16777216) × (length area.now + 64 ≤ length out.old) }
    ensures { out.new ≡ over (tag_parts area.now count) out.old }
{
    let n = area.len();
    let size = (n + 32) as u32;
    put_block(out, size, count, HEADER_FLAGS);
    lists::put(&mut out[32..], 0, area);
    let at = 32 + n;
    put_block(&mut out[at..], size, count, FOOTER_FLAGS);
}

// Writes the tag of the items of a well-formed area to the front of `out`, and answers its length.
pub fn put_tag(out: &mut [u8], area: &[u8], count: usize) -> usize
    requires { (is_some (parse count area.now) ≡ true) × (length (serialize (items_in count area.now)) ≤ 16777216)
        × (length (serialize (items_in count area.now)) ≤ length out.old) }
    ensures { (result ≡ length (serialize (items_in count area.now)))
        × (out.new ≡ over (serialize (items_in count area.now)) out.old) }
{
    if count == 0 {
        return 0;
    }
    put_parts(out, area, count as u32);
    area.len() + 64
}

// The tag of the items of an area, in bytes: refusals 12 and 5.
pub fn serialize_ape_tag(area: &[u8], count: usize, out: &mut [u8]) -> Result<usize, Refusal>
    ensures { let plan = serialize_plan area.now count (length out.old) in
        (result ≡ written_answer plan) × (out.new ≡ over (written_bytes plan) out.old) }
{
    if !items::well_formed(area, count) {
        return Err(Refusal::MalformedArea);
    }
    let n = tag_length(area.len(), count);
    if out.len() < n {
        return Err(Refusal::NoRoom);
    }
    if replies::FILE_LIMIT < n {
        return Err(Refusal::NoRoom);
    }
    Ok(put_tag(out, area, count))
}
