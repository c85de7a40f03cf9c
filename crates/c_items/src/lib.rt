// The faces of crates keys, items and area_values that read: a key looked at, an item of an area found, the undo number got.
#![tactic(auto)]

ghost use Rattle.std.specs.Prelude.{◌≡◌, unwrap_or};
ghost use Rattle.keys.specs.Keys.{is_key, which_key};
ghost use Rattle.items.specs.Answers.{step_of, find_of};
ghost use Rattle.area_values.specs.Undo.{undo_gain_of};
ghost use Rattle.c_items.specs.ItemsFace.{item_face, found_face, gain_face};

use items::{Found, Stepped};
use replies::Refusal;

// Whether refusal 3 lets the key pass.
#[unsafe(no_mangle)]
pub extern "C" fn zib_is_key(key: &[u8]) -> bool
    ensures { result ≡ is_key key.now }
{
    keys::is_key(key)
}

// Which of the eight keys of mp3gain it is, in any letter case: its place, or 8 for none of them.
#[unsafe(no_mangle)]
pub extern "C" fn zib_which_key(key: &[u8]) -> usize
    ensures { result ≡ unwrap_or (which_key key.now) 8 }
{
    keys::which_key(key).unwrap_or(8)
}

// The item that begins at this place of the area: `there` is 1, with its flags and where its key and its value start and end, or all six are 0
// at the end of the area. The next item begins where the value ends. Refusal 12.
#[unsafe(no_mangle)]
pub extern "C" fn zib_item_at(
    area: &[u8],
    at: usize,
    there: &mut u32,
    flags: &mut u32,
    key_start: &mut usize,
    key_end: &mut usize,
    value_start: &mut usize,
    value_end: &mut usize,
) -> u32
    ensures { let face = item_face (step_of area.now at) there.old flags.old key_start.old key_end.old value_start.old
        value_end.old in
        (result ≡ face.reply) × (there.new ≡ face.there) × (flags.new ≡ face.flags) × (key_start.new ≡ face.key_start)
        × (key_end.new ≡ face.key_end) × (value_start.new ≡ face.value_start) × (value_end.new ≡ face.value_end) }
{
    match items::step(area, at) {
        Stepped::Item {
            flags: f,
            key_start: a,
            key_end: b,
            value_start: c,
            value_end: d,
        } => {
            *there = 1;
            *flags = f;
            *key_start = a;
            *key_end = b;
            *value_start = c;
            *value_end = d;
            0
        }
        Stepped::End => {
            *there = 0;
            *flags = 0;
            *key_start = 0;
            *key_end = 0;
            *value_start = 0;
            *value_end = 0;
            0
        }
        Stepped::Malformed => replies::number(Refusal::MalformedArea),
    }
}

// The reply to get, and what it found into the lent numbers.
fn found(
    answer: Result<Option<Found>, Refusal>,
    there: &mut u32,
    start: &mut usize,
    size: &mut usize,
    repeated: &mut u32,
) -> u32
    ensures { let face = found_face answer there.old start.old size.old repeated.old in
        (result ≡ face.reply) × (there.new ≡ face.there) × (start.new ≡ face.start) × (size.new ≡ face.size)
        × (repeated.new ≡ face.repeated) }
{
    match answer {
        Ok(Some(f)) => {
            *there = 1;
            *start = f.start;
            *size = f.length;
            *repeated = u32::from(f.repeated);
            0
        }
        Ok(None) => {
            *there = 0;
            *start = 0;
            *size = 0;
            *repeated = 0;
            0
        }
        Err(r) => replies::number(r),
    }
}

// The value of the first item with this key, as a part of the area: `there` is 1, with the value's start and size, and `repeated` is 1 where a
// later item has the key too; all four are 0 where no item has it. Refusals 12 and 3.
#[unsafe(no_mangle)]
pub extern "C" fn zib_get(
    area: &[u8],
    count: usize,
    key: &[u8],
    there: &mut u32,
    start: &mut usize,
    size: &mut usize,
    repeated: &mut u32,
) -> u32
    ensures { let face = found_face (find_of area.now count key.now) there.old start.old size.old repeated.old in
        (result ≡ face.reply) × (there.new ≡ face.there) × (start.new ≡ face.start) × (size.new ≡ face.size)
        × (repeated.new ≡ face.repeated) }
{
    found(items::find(area, count, key), there, start, size, repeated)
}

// The left number of the first undo item: `there` is 1 and `steps` the number, or both are 0 where there is none. It takes no notice of a
// second one. Refusal 12.
#[unsafe(no_mangle)]
pub extern "C" fn zib_get_undo_gain(
    area: &[u8],
    count: usize,
    there: &mut u32,
    steps: &mut i32,
) -> u32
    ensures { let found = undo_gain_of area.now count in
        let face = gain_face found there.old steps.old in
        (result ≡ face.reply) × (there.new ≡ face.there) × (steps.new ≡ face.steps) }
{
    match area_values::get_undo_gain(area, count) {
        Ok(Some(n)) => {
            *there = 1;
            *steps = n;
            0
        }
        Ok(None) => {
            *there = 0;
            *steps = 0;
            0
        }
        Err(r) => replies::number(r),
    }
}
