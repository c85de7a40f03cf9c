// The values that mp3gain keeps in a tag: undo texts and ranges; and by its key, the shift of each stored value.
#![tactic(auto)]

ghost use Rattle.std.specs.Prelude.{◌≡◌, option_map};
ghost use Rattle.decimal.specs.Writing.{text_of};
ghost use Rattle.values.specs.Undo as U;
ghost use Rattle.values.specs.Range as R;
ghost use Rattle.values.specs.Stored as S;

use decimal::Text;
use frame::{GainMode, GainSteps};
use keys::Key;

// The steps that undo what was applied.
#[derive(Clone, Copy)]
pub struct UndoValues {
    pub left: i32,
    pub right: i32,
}

// The least and the greatest gain.
#[derive(Clone, Copy)]
pub struct Range {
    pub least: u8,
    pub greatest: u8,
}

// The two numbers of an undo text. A missing text is lent as an empty one.
#[tactic(auto, unfolding(crate::specs::Undo::parse_undo))]
pub fn parse_undo_values(text: &[u8]) -> UndoValues
    ensures { result ≡ U.parse_undo text.now }
{
    let left = number::parse_i32(number::field(text, 0)).unwrap_or(0);
    let right = number::parse_i32(number::field(text, 1)).unwrap_or(left);
    UndoValues { left, right }
}

// Whether an undo text has the flag W.
pub fn parse_undo_wrap(text: &[u8]) -> bool
    ensures { result ≡ U.undo_wraps text.now }
{
    let flag = number::trim(number::field(text, 2));
    keys::same_key(flag, b"W")
}

fn flag_byte(wrap: bool) -> u8
    ensures { result ≡ U.flag_byte wrap }
{
    if wrap { b'W' } else { b'N' }
}

// The undo text of two numbers and a flag.
pub fn format_undo_value(left: i32, right: i32, wrap: bool) -> Text
    ensures { result ≡ text_of (U.format_undo left right wrap) }
{
    let mut bytes = [0u8; 32];
    let a = decimal::put_signed(&mut bytes, 0, left);
    let b = lists::put(&mut bytes, a, b",");
    let c = decimal::put_signed(&mut bytes, b, right);
    let len = lists::put(&mut bytes, c, &[b',', flag_byte(wrap)]);
    Text { bytes, len }
}

// The text of a range.
pub fn format_minmax(least: u8, greatest: u8) -> Text
    ensures { result ≡ text_of (R.format_range (record { least = least; greatest = greatest })) }
{
    let mut bytes = [0u8; 32];
    let a = decimal::put_places(&mut bytes, 0, 3, u32::from(least));
    let b = lists::put(&mut bytes, a, b",");
    let len = decimal::put_places(&mut bytes, b, 3, u32::from(greatest));
    Text { bytes, len }
}

// The undo numbers after a further apply: the steps are subtracted from what is stored.
pub fn accumulate_undo(text: &[u8], left: GainSteps, right: GainSteps) -> UndoValues
    ensures { result ≡ U.accumulated text.now left.0 right.0 }
{
    let stored = parse_undo_values(text);
    UndoValues {
        left: stored.left.saturating_sub(left.0),
        right: stored.right.saturating_sub(right.0),
    }
}

// Reads a range: all before and all after the first comma.
pub fn parse_range(text: &[u8]) -> Option<Range>
    ensures { result ≡ R.parse_range text.now }
{
    let comma = lists::find_byte(text, 0, b',');
    if comma == text.len() {
        return None;
    }
    let least = number::parse_u8(&text[..comma])?;
    let greatest = number::parse_u8(&text[comma + 1..])?;
    Some(Range { least, greatest })
}

// Whether a field's number leaves 0..255. A field that does not parse does not.
#[tactic(auto, using(crate::proofs::Sums::out_of_range), unfolding(crate::specs::Range::leaves))]
fn leaves(text: &[u8], steps: GainSteps) -> bool
    ensures { result ≡ R.leaves steps.0 text.now }
{
    let Some(n) = number::parse_i32(text) else {
        return false;
    };
    let sum = i64::from(n) + i64::from(steps.0);
    sum < 0 || 255 < sum
}

// Whether a number of a range leaves 0..255.
fn wraps_out(text: &[u8], steps: GainSteps) -> bool
    ensures { result ≡ R.wraps_out steps.0 text.now }
{
    let e = lists::find_byte(text, 0, b',');
    if e == text.len() {
        return false;
    }
    leaves(&text[..e], steps) || leaves(&text[e + 1..], steps)
}

// A range, each number shifted as under N.
#[tactic(auto, unfolding(crate::specs::Range::shift_range))]
fn shift_range(text: &[u8], steps: GainSteps) -> Option<Text>
    ensures { result ≡ option_map text_of (R.shift_range steps.0 text.now) }
{
    let range = parse_range(text)?;
    let least = frame::adjust_gain_value(range.least, steps, GainMode::Saturating);
    let greatest = frame::adjust_gain_value(range.greatest, steps, GainMode::Saturating);
    Some(format_minmax(least, greatest))
}

// The kinds of values that a shift tells apart.
#[derive(Clone, Copy)]
pub enum Kind {
    Range,
    Gain,
    Peak,
    Other,
}

// What kind of value an item with this key holds.
#[tactic(auto, unfolding(crate::specs::Stored::kind_of))]
fn kind_of(key: &[u8]) -> Kind
    ensures { result ≡ S.kind_of key.now }
{
    match keys::known_key(key) {
        Some(Key::Minmax | Key::AlbumMinmax) => Kind::Range,
        Some(Key::TrackGain | Key::AlbumGain) => Kind::Gain,
        Some(Key::TrackPeak | Key::AlbumPeak) => Kind::Peak,
        Some(Key::Undo | Key::Algorithm) | None => Kind::Other,
    }
}

// Whether an item is a range of which a number leaves 0..255.
#[tactic(auto, unfolding(crate::specs::Stored::range_wraps_out))]
pub fn range_wraps_out(key: &[u8], value: &[u8], steps: GainSteps) -> bool
    ensures { result ≡ S.range_wraps_out key.now value.now steps.0 }
{
    match kind_of(key) {
        Kind::Range => wraps_out(value, steps),
        Kind::Gain | Kind::Peak | Kind::Other => false,
    }
}

// A stored value after so many steps. Values of other keys stay as found.
#[tactic(auto, unfolding(crate::specs::Stored::shift_stored))]
pub fn shift_stored_value(key: &[u8], value: &[u8], steps: GainSteps) -> Option<Text>
    ensures { result ≡ option_map text_of (S.shift_stored key.now value.now steps.0) }
{
    match kind_of(key) {
        Kind::Range => shift_range(value, steps),
        Kind::Gain => decibels::shift_gain(value, steps),
        Kind::Peak => peaks::shift_peak(value, steps),
        Kind::Other => None,
    }
}
