// The ReplayGain items of an item area, set in one pass.
#![tactic(auto)]

ghost use Rattle.std.specs.Prelude.{◌≡◌, true, false, List, ℕ, [], ◌∷◌, ◌≤◌, ◌<◌, ◌+◌, length, get_or, map};
ghost use Rattle.lists.specs.Choice.{is_some, provided};
ghost use Rattle.lists.specs.Write.{over, splice};
ghost use Rattle.replies.specs.Limits.{file_limit};
ghost use Rattle.items.specs.Items.{area_bytes, parse, items_in};
ghost use Rattle.area_edit.specs.Edits.{answer, bytes};
ghost use Rattle.area_gains.specs.Gains.{set_each, gain_keys, marked, marks, present, all_valid, set_gains_plan, gain_place, added, capped};

use items::{Size, Stepped};
use replies::Refusal;

// REPLAYGAIN_KEYS.
const GAIN_KEYS: [&[u8]; 5] = [
    &keys::TAG_REPLAYGAIN_TRACK_GAIN,
    &keys::TAG_REPLAYGAIN_TRACK_PEAK,
    &keys::TAG_REPLAYGAIN_ALBUM_GAIN,
    &keys::TAG_REPLAYGAIN_ALBUM_PEAK,
    &keys::TAG_REPLAYGAIN_ALGORITHM,
];

// The key at a place among REPLAYGAIN_KEYS.
fn key_at(i: usize) -> &'static [u8]
    requires { i < 5 }
    ensures { result.now ≡ get_or gain_keys i [] }
{
    GAIN_KEYS[i]
}

// The place of a key among REPLAYGAIN_KEYS, the last five of the eight.
fn place(key: &[u8]) -> Option<usize>
    ensures { result ≡ gain_place key.now }
{
    keys::which_key(key)?.checked_sub(3)
}

// The place of the text that is still to be set at this key.
fn waiting(todo: [bool; 5], key: &[u8]) -> Option<usize>
    ensures { result ≡ provided (λ i. get_or todo i false) (gain_place key.now) }
{
    let i = place(key)?;
    if todo[i] { Some(i) } else { None }
}

// Which of the five are to be set.
fn to_set(texts: [&[u8]; 5]) -> [bool; 5]
    ensures { result ≡ marks (map (λ t. t.now) texts.entry) }
{
    let mut marks = [false; 5];
    for i in 0..5 {
        marks[i] = 0 < texts[i].len();
    }
    marks
}

// Whether each of the five is UTF-8.
fn are_utf8(texts: [&[u8]; 5]) -> bool
    ensures { result ≡ all_valid (map (λ t. t.now) texts.entry) }
{
    for i in 0..5 {
        if !utf8::is_utf8(texts[i]) {
            return false;
        }
    }
    true
}

// A size with so many more bytes.
fn grown(size: usize, more: usize) -> usize
    ensures { result ≡ capped (size + more) }
{
    size.saturating_add(more).min(replies::FILE_LIMIT + 1)
}

// A size with the items that are still to be set.
fn with_rest(mut size: usize, todo: [bool; 5], texts: [&[u8]; 5]) -> usize
    requires { size ≤ file_limit + 1 }
    ensures { result ≡ capped (size + length (added gain_keys todo (map (λ t. t.now) texts.entry))) }
{
    for i in 0..5 {
        if todo[i] {
            size = grown(grown(size, 9 + key_at(i).len()), texts[i].len());
        }
    }
    size
}

// How many bytes a well-formed area has with the texts set.
fn measure_gains(area: &[u8], count: usize, texts: [&[u8]; 5]) -> usize
    requires { is_some (parse count area.now) ≡ true }
    ensures { result ≡ capped (length (area_bytes (set_each (present (map (λ t. t.now) texts.entry)) (items_in count area.now)))) }
{
    let mut todo = to_set(texts);
    let mut at = 0;
    let mut size = 0;
    for _ in 0..count {
        let Stepped::Item {
            key_start,
            key_end,
            value_start,
            value_end,
            ..
        } = items::step(area, at)
        else {
            return size;
        };
        if let Some(i) = waiting(todo, &area[key_start..key_end]) {
            todo[i] = false;
            size = grown(grown(size, value_start - at), texts[i].len());
        } else {
            size = grown(size, value_end - at);
        }
        at = value_end;
    }
    with_rest(size, todo, texts)
}

// Writes the items that are still to be set behind what is written.
fn put_rest(out: &mut [u8], mut size: Size, todo: [bool; 5], texts: [&[u8]; 5]) -> Size
    requires { let vs = map (λ t. t.now) texts in (size.count ≤ size.length)
        × (size.length + length (added gain_keys todo vs) ≤ length out.old) × (length (added gain_keys todo vs) ≤ file_limit) }
    ensures { let vs = map (λ t. t.now) texts.entry in
        (result.count ≡ size.count + length (marked gain_keys todo vs)) × (result.length ≡ size.length + length (added gain_keys todo vs))
        × (out.new ≡ splice out.old size.length (added gain_keys todo vs)) }
{
    for k in 0..5 {
        if todo[k] {
            size = Size {
                count: size.count + 1,
                length: area_edit::put_item(out, size.length, key_at(k), texts[k]),
            };
        }
    }
    size
}

// Writes a well-formed area with the texts set to the front of `out`.
fn write_gains(area: &[u8], count: usize, texts: [&[u8]; 5], out: &mut [u8]) -> Size
    requires { let ts = set_each (present (map (λ t. t.now) texts)) (items_in count area.now) in
        (is_some (parse count area.now) ≡ true) × (length (area_bytes ts) ≤ length out.old) × (length (area_bytes ts) ≤ file_limit) }
    ensures { let ts = set_each (present (map (λ t. t.now) texts.entry)) (items_in count area.now) in
        (result.count ≡ length ts) × (result.length ≡ length (area_bytes ts)) × (out.new ≡ over (area_bytes ts) out.old) }
{
    let mut to_write = to_set(texts);
    let mut at = 0;
    let mut o = 0;
    for _ in 0..count {
        let Stepped::Item {
            key_start,
            key_end,
            value_end,
            ..
        } = items::step(area, at)
        else {
            return Size { count, length: o };
        };
        if let Some(i) = waiting(to_write, &area[key_start..key_end]) {
            to_write[i] = false;
            o = area_edit::put_changed(out, o, area, at, key_end, texts[i]);
        } else {
            o = lists::put_part(out, o, area, at, value_end);
        }
        at = value_end;
    }
    put_rest(out, Size { count, length: o }, to_write, texts)
}

// The area with each of the texts that is not empty at its REPLAYGAIN key. Five texts by their names: in an
// array a place would stand for each name. Inside they are one.
pub fn set_replaygain<'a>(
    area: &[u8],
    count: usize,
    track_gain: &'a [u8],
    track_peak: &'a [u8],
    album_gain: &'a [u8],
    album_peak: &'a [u8],
    algorithm: &'a [u8],
    out: &mut [u8],
) -> Result<Size, Refusal>
    ensures { let texts = track_gain.now ∷ track_peak.now ∷ album_gain.now ∷ album_peak.now ∷ algorithm.now ∷ [] in
        let plan = set_gains_plan texts count area.now (length out.old) in
        (result ≡ answer plan) × (out.new ≡ over (bytes plan) out.old) }
{
    let texts = [track_gain, track_peak, album_gain, album_peak, algorithm];
    if !items::well_formed(area, count) {
        return Err(Refusal::MalformedArea);
    }
    if !are_utf8(texts) {
        return Err(Refusal::NotUtf8);
    }
    let size = measure_gains(area, count, texts);
    if out.len() < size || size > replies::FILE_LIMIT {
        return Err(Refusal::NoRoom);
    }
    Ok(write_gains(area, count, texts, out))
}
