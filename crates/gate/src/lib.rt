// The editing gate: whether a file is fit for editing, and where the items of its tag stand.
#![tactic(auto)]

ghost use Rattle.std.specs.Prelude.{◌≡◌, true, ◌≤◌, ◌+◌, length, Some};
ghost use Rattle.lists.specs.Choice.{provided, is_some};
ghost use Rattle.frame.specs.Tail.{tag_start};
ghost use Rattle.utf8.specs.Utf8.{Classes};
ghost use Rattle.items.specs.Items.{parse, items_in};
ghost use Rattle.calls.specs.Gate.{is_headed, flags_fit, item_valid, all_valid};
ghost use Rattle.gate.specs.Gate.{gate_of};

use items::Stepped;
use replies::Refusal;

// Flag bit 29: this is the header.
const APE_FLAG_IS_HEADER: u32 = 0x2000_0000;

// Where the items of a file's tag stand, and how many there are.
#[derive(Clone, Copy)]
pub struct TagArea {
    pub start: usize,
    pub end: usize,
    pub count: usize,
}

// Whether an item's flags name the type text, binary or external, with no bit beside those of the type and read-only.
fn flags_fit(flags: u32) -> bool
    ensures { result ≡ flags_fit flags }
{
    items::type_of(flags) <= 2 && flags < 8
}

// Whether an item may stand in a tag that is edited: such flags, a UTF-8 key, and a UTF-8 value unless it is binary.
fn item_valid(table: &[u8; 256], flags: u32, key: &[u8], value: &[u8]) -> bool
    requires { Classes table.now }
    ensures { result ≡ item_valid (record { key = key.entry.now; value = value.now; flags = flags }) }
{
    if !flags_fit(flags) {
        return false;
    }
    if !utf8::is_utf8_by(table, key) {
        return false;
    }
    if items::is_binary(flags) {
        return true;
    }
    utf8::is_utf8_by(table, value)
}

// Whether each item of a well-formed area is valid.
fn all_valid(table: &[u8; 256], area: &[u8], count: usize) -> bool
    requires { (Classes table.now) × (is_some (parse count area.now) ≡ true) }
    ensures { result ≡ all_valid (items_in count area.now) }
{
    let mut at = 0;
    for _ in 0..count {
        let Stepped::Item {
            flags,
            key_start,
            key_end,
            value_start,
            value_end,
        } = items::step(area, at)
        else {
            return false;
        };
        if !item_valid(
            table,
            flags,
            &area[key_start..key_end],
            &area[value_start..value_end],
        ) {
            return false;
        }
        at = value_end;
    }
    true
}

// Whether the area is exactly `count` valid items.
fn is_clean(area: &[u8], count: usize) -> bool
    ensures { result ≡ is_some (provided all_valid (parse count area.now)) }
{
    if !items::well_formed(area, count) {
        return false;
    }
    let table = utf8::table::CLASS;
    all_valid(&table, area, count)
}

// Whether a tag whose footer says that it has a header begins with one: the preamble, the version of APEv2, the footer's size and count, bit 29.
fn is_headed(file: &[u8], footer: usize, start: usize) -> bool
    requires { (footer + 32 ≤ length file.now) × (start ≤ footer) × (tag_start file.now footer ≡ Some start) }
    ensures { result ≡ is_headed file.now footer }
{
    if frame::read_u32_le(file, footer + 20) < frame::APE_FLAG_HEADER_PRESENT {
        return true;
    }
    if !lists::starts_with(file, start, &frame::APE_PREAMBLE) {
        return false;
    }
    if frame::read_u32_le(file, start + 8) != ape::APE_VERSION {
        return false;
    }
    if frame::read_u32_le(file, start + 12) != frame::read_u32_le(file, footer + 12) {
        return false;
    }
    if frame::read_u32_le(file, start + 16) != frame::read_u32_le(file, footer + 16) {
        return false;
    }
    frame::read_u32_le(file, start + 20) / APE_FLAG_IS_HEADER % 2 == 1
}

// Where the items of the file's tag stand, if the file is fit for editing, an empty part where it has no tag: refusal 8. It takes no notice of a key that comes twice.
pub fn gate(file: &[u8]) -> Result<TagArea, Refusal>
    ensures { result ≡ gate_of file.now }
{
    let Some(footer) = ape::find_footer(file) else {
        return Ok(TagArea {
            start: 0,
            end: 0,
            count: 0,
        });
    };
    if frame::read_u32_le(file, footer + 8) != ape::APE_VERSION {
        return Err(Refusal::NotEditable);
    }
    let size = frame::read_u32_le(file, footer + 12) as usize;
    if size < 32 {
        return Err(Refusal::NotEditable);
    }
    let Some(tag) = frame::ape_tag_start(file, footer) else {
        return Err(Refusal::NotEditable);
    };
    let count = frame::read_u32_le(file, footer + 16) as usize;
    if replies::COUNT_LIMIT < count {
        return Err(Refusal::NotEditable);
    }
    if 32 + replies::AREA_LIMIT < size {
        return Err(Refusal::NotEditable);
    }
    if !is_headed(file, footer, tag) {
        return Err(Refusal::NotEditable);
    }
    let start = footer + 32 - size;
    if !is_clean(&file[start..footer], count) {
        return Err(Refusal::NotEditable);
    }
    Ok(TagArea {
        start,
        end: footer,
        count,
    })
}
