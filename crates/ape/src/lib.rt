// The tag of a file found and read: find_ape_footer and read_ape_tag.
#![tactic(auto)]

ghost use Rattle.std.specs.Prelude.{option_map, ◌≡◌, true, ◌≤◌, ◌<◌, ◌+◌, min, ◌-◌, leb, length, drop};
ghost use Rattle.lists.specs.Bytes.{starts_with};
ghost use Rattle.lists.specs.Write.{over, splice};
ghost use Rattle.frame.specs.Tail.{preamble};
ghost use Rattle.utf8.specs.Utf8.{Classes};
ghost use Rattle.lossy.specs.Write.{within};
ghost use Rattle.items.specs.Items.{area_bytes, item_bytes};
ghost use Rattle.ape.specs.Tag.{find_footer, read_value, converted, read_items};
ghost use Rattle.ape.specs.Answers.{footer_plan, footer_answer, measured_as, items_plan, read_plan, read_answer, read_bytes};

use items::{Size, Stepped};
use replies::Refusal;

// The version that a header and a footer name.
pub const APE_VERSION: u32 = 2000;

// Whether the preamble stands in `file` at `at`. Its bytes are compared four at a time, as numbers.
fn is_preamble(file: &[u8], at: usize) -> bool
    requires { at + 8 ≤ length file.now }
    ensures { result ≡ starts_with preamble (drop at file.now) }
{
    let text = frame::APE_PREAMBLE;
    if frame::read_u32_le(file, at) != frame::read_u32_le(&text, 0) {
        return false;
    }
    frame::read_u32_le(file, at + 4) == frame::read_u32_le(&text, 4)
}

// The footer at EOF-32; else the one at EOF-160, before an ID3v1 block.
pub fn find_footer(file: &[u8]) -> Option<usize>
    ensures { result ≡ find_footer file.now }
{
    if file.len() < 32 {
        return None;
    }
    let last = file.len() - 32;
    if is_preamble(file, last) {
        return Some(last);
    }
    if file.len() < 160 {
        return None;
    }
    let before = file.len() - 160;
    if !is_preamble(file, before) {
        return None;
    }
    if !frame::ends_with_id3v1(file) {
        return None;
    }
    Some(before)
}

// The same of a lent file: refusal 1.
pub fn find_ape_footer(file: &[u8]) -> Result<Option<usize>, Refusal>
    ensures { result ≡ footer_answer (footer_plan file.now) }
{
    if replies::FILE_LIMIT < file.len() {
        return Err(Refusal::FileTooLong);
    }
    Ok(find_footer(file))
}

// Writes a value as it is read into `out` from `at`, and answers where it ends.
fn put_value(table: &[u8; 256], out: &mut [u8], at: usize, flags: u32, value: &[u8]) -> usize
    requires { (Classes table.now) × (at + length (read_value flags value.now) ≤ length out.old) }
    ensures { let new = read_value flags value.now in
        (result ≡ at + length new) × (out.new ≡ splice out.old at new) }
{
    if items::is_binary(flags) {
        return lists::put(out, at, value);
    }
    lossy::lossy_put(table, out, at, value)
}

// How many bytes a value has as it is read, where that is at most `room`.
fn value_size(table: &[u8; 256], flags: u32, value: &[u8], room: usize) -> Option<usize>
    requires { Classes table.now }
    ensures { result ≡ option_map length (within room (read_value flags value.now)) }
{
    if !items::is_binary(flags) {
        return lossy::lossy_within(table, value, room);
    }
    if room < value.len() {
        return None;
    }
    Some(value.len())
}

// Writes an item, its key and value as they are read, into `out` from `at`, and answers where it ends. The texts come first: their length is
// known only then.
fn put_item(
    table: &[u8; 256],
    out: &mut [u8],
    at: usize,
    flags: u32,
    key: &[u8],
    value: &[u8],
) -> usize
    requires { (Classes table.now) × (length value.now ≤ 16777216)
        × (at + length (item_bytes (converted flags key.now value.now)) ≤ length out.old) }
    ensures { let new = item_bytes (converted flags key.now value.now) in
        (result ≡ at + length new) × (out.new ≡ splice out.old at new) }
{
    let k = lossy::lossy_put(table, out, at + 8, key);
    let z = lists::put(out, k, b"\0");
    let v = put_value(table, out, z, flags, value);
    lists::put_u32_le(out, at + 4, flags);
    lists::put_u32_le(out, at, (v - z) as u32);
    v
}

// How many bytes an item has once its key and value are converted, where that is at most `room`.
fn converted_size(
    table: &[u8; 256],
    flags: u32,
    key: &[u8],
    value: &[u8],
    room: usize,
) -> Option<usize>
    requires { Classes table.now }
    ensures { result ≡ option_map length (within room (item_bytes (converted flags key.now value.now))) }
{
    let a = lossy::lossy_within(table, key, room)?;
    let b = value_size(table, flags, value, room - a)?;
    let n = a + b;
    if room - n < 9 {
        return None;
    }
    Some(n + 9)
}

// How many of at most `count` items are read from these bytes, and how long their area is, where that is at most `room`.
fn measure_items(table: &[u8; 256], items: &[u8], count: usize, room: usize) -> Option<Size>
    requires { Classes table.now }
    ensures { result ≡ measured_as room (read_items count items.now) }
{
    let mut at = 0;
    let mut length = 0;
    for read in 0..count {
        let Stepped::Item {
            flags,
            key_start,
            key_end,
            value_start,
            value_end,
        } = items::step(items, at)
        else {
            return Some(Size {
                count: read,
                length,
            });
        };
        length += converted_size(
            table,
            flags,
            &items[key_start..key_end],
            &items[value_start..value_end],
            room - length,
        )?;
        at = value_end;
    }
    Some(Size { count, length })
}

// Writes the items that are read from these bytes to the front of `out`: how many, and how long their area is.
fn write_items(table: &[u8; 256], items: &[u8], count: usize, out: &mut [u8]) -> Size
    requires { (Classes table.now) × (length items.now ≤ 16777216) × (length (area_bytes (read_items count items.now)) ≤ length out.old) }
    ensures { let ts = read_items count items.now in
        (result.count ≡ length ts) × (result.length ≡ length (area_bytes ts)) × (out.new ≡ over (area_bytes ts) out.old) }
{
    let mut at = 0;
    let mut length = 0;
    for read in 0..count {
        let Stepped::Item {
            flags,
            key_start,
            key_end,
            value_start,
            value_end,
        } = items::step(items, at)
        else {
            return Size {
                count: read,
                length,
            };
        };
        length = put_item(
            table,
            out,
            length,
            flags,
            &items[key_start..key_end],
            &items[value_start..value_end],
        );
        at = value_end;
    }
    Size { count, length }
}

// Whether the area of the items that are read from these bytes has room. Room for three times the bytes is enough, with no pass to measure.
fn items_fit(table: &[u8; 256], items: &[u8], count: usize, room: usize) -> bool
    requires { Classes table.now }
    ensures { result ≡ leb (length (area_bytes (read_items count items.now))) room }
{
    if items.len() <= room / 3 {
        return true;
    }
    measure_items(table, items, count, room).is_some()
}

// Reads at most `count` items from these bytes into `out`: refusal 5.
fn read_items(items: &[u8], count: usize, out: &mut [u8]) -> Result<Option<Size>, Refusal>
    requires { length items.now ≤ 16777216 }
    ensures { let plan = items_plan (length out.old) (read_items count items.now) in
        (result ≡ read_answer plan) × (out.new ≡ over (read_bytes plan) out.old) }
{
    let table = utf8::table::CLASS;
    if !items_fit(&table, items, count, out.len().min(replies::FILE_LIMIT)) {
        return Err(Refusal::NoRoom);
    }
    Ok(Some(write_items(&table, items, count, out)))
}

// Where the items begin that end at `footer`: at the footer itself where the size is under 32.
fn items_start(footer: usize, size: usize) -> usize
    requires { size ≤ footer + 32 }
    ensures { (result ≤ footer) × (footer - result ≡ size - 32) × ((32 ≤ size → result ≡ footer + 32 - size)) }
{
    if size < 32 {
        return footer;
    }
    footer - (size - 32)
}

// Reads the tag of a file into `area`: no tag, or how many items it has and how long their area is. It takes no notice
// of a key that comes twice. Refusals 1 and 5.
pub fn read_ape_tag(file: &[u8], area: &mut [u8]) -> Result<Option<Size>, Refusal>
    ensures { let plan = read_plan file.now (length area.old) in
        (result ≡ read_answer plan) × (area.new ≡ over (read_bytes plan) area.old) }
{
    if replies::FILE_LIMIT < file.len() {
        return Err(Refusal::FileTooLong);
    }
    let Some(footer) = find_footer(file) else {
        return Ok(None);
    };
    if frame::read_u32_le(file, footer + 8) != APE_VERSION {
        return Ok(None);
    }
    let size = frame::read_u32_le(file, footer + 12) as usize;
    if footer + 32 < size {
        return Ok(None);
    }
    let count = frame::read_u32_le(file, footer + 16) as usize;
    let start = items_start(footer, size);
    read_items(&file[start..footer], count, area)
}
