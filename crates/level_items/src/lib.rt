// The items that level leaves in a tag: stored values moved or dropped, then the undo item and the range of all gains set.
#![tactic(auto)]

ghost use Rattle.std.specs.Prelude.{◌≡◌, true, ◌≤◌, ◌+◌, ◌*◌, length};
ghost use Rattle.lists.specs.Choice.{is_some};
ghost use Rattle.lists.specs.Write.{over};
ghost use Rattle.replies.specs.Limits.{file_limit, count_limit};
ghost use Rattle.keys.specs.Keys.{undo_key, minmax_key};
ghost use Rattle.values.specs.Undo.{format_undo};
ghost use Rattle.values.specs.Range.{format_range};
ghost use Rattle.items.specs.Items.{area_bytes, parse, items_in, text_item, set_item};
ghost use Rattle.calls.specs.Calls.{wraps as wraps_by, shifted_items, is_peak_key, count_items, keeps_peak, peaks_kept};
ghost use Rattle.gains.specs.Moves.{level_by};
ghost use Rattle.level_items.specs.Items.{Wrote, undone_items, ranged_items};

use area_drop::Undone;
use frame::{GainMode, GainSteps};
use gains::Moving;
use items::{Size, Stepped};
use keys::Key;
use values::{Range, UndoValues};

// Whether the flag is W.
fn wraps(mode: GainMode) -> bool
    ensures { result ≡ wraps_by mode }
{
    match mode {
        GainMode::Saturating => false,
        GainMode::Wrapping => true,
    }
}

// Writes a well-formed area with this item set to the front of `out`.
fn put_set(area: &[u8], count: usize, key: &[u8], value: &[u8], out: &mut [u8]) -> Size
    requires { (is_some (parse count area.now) ≡ true) × (length value.now ≤ file_limit)
        × (length (area_bytes (set_item key.now value.now (items_in count area.now))) ≤ length out.old) }
    ensures { Wrote (set_item key.now value.now (items_in count area.now)) out.old result out.new }
{
    let place = items::locate(area, count, key).unwrap();
    area_edit::write_set(area, count, key, value, place, out)
}

// Writes a well-formed area with the undo item of these numbers to the front of `out`.
fn put_undo(area: &[u8], count: usize, undo: UndoValues, mode: GainMode, out: &mut [u8]) -> Size
    requires { (is_some (parse count area.now) ≡ true)
        × (length (area_bytes (set_item undo_key (format_undo undo.left undo.right (wraps_by mode)) (items_in count area.now))) ≤ length out.old) }
    ensures { Wrote (set_item undo_key (format_undo undo.left undo.right (wraps_by mode)) (items_in count area.now)) out.old result out.new }
{
    let text = values::format_undo_value(undo.left, undo.right, wraps(mode));
    put_set(area, count, &keys::TAG_MP3GAIN_UNDO, text.as_slice(), out)
}

// Writes a well-formed area with this range to the front of `out`.
fn put_range(area: &[u8], count: usize, range: Range, out: &mut [u8]) -> Size
    requires { (is_some (parse count area.now) ≡ true)
        × (length (area_bytes (set_item minmax_key (format_range range) (items_in count area.now))) ≤ length out.old) }
    ensures { Wrote (set_item minmax_key (format_range range) (items_in count area.now)) out.old result out.new }
{
    let text = values::format_minmax(range.least, range.greatest);
    put_set(area, count, &keys::TAG_MP3GAIN_MINMAX, text.as_slice(), out)
}

// Writes what level leaves of the stored values of a well-formed area to the front of `out`: moved where the steps are equal, else without
// UNDONE_KEYS.
fn put_moved(area: &[u8], count: usize, moves: Moving, out: &mut [u8]) -> Size
    requires { (is_some (parse count area.now) ≡ true)
        × (length (area_bytes (shifted_items (level_by moves) (items_in count area.now))) ≤ length out.old) }
    ensures { Wrote (shifted_items (level_by moves) (items_in count area.now)) out.old result out.new }
{
    if moves.left.0 == moves.right.0 {
        return area_shift::write_shifted(area, count, moves.left, moves.mode, out);
    }
    let size = area_drop::measure_without_keys(area, count, &Undone).unwrap();
    area_drop::write_without_keys(area, count, &Undone, out);
    size
}

// Writes the items that level leaves of those of a file that is fit for editing to the front of `out`. The moved ones stand there first,
// and those with the undo item in `work`: each text that moves or is set needs at most so much more room.
pub fn write_items(
    area: &[u8],
    count: usize,
    moves: Moving,
    undo: UndoValues,
    range: Range,
    work: &mut [u8],
    out: &mut [u8],
) -> Size
    requires { (is_some (parse count area.now) ≡ true) × (count ≤ count_limit) × (length area.now ≤ 32768)
        × (length area.now + 32 * count + 76 ≤ length work.old) × (length area.now + 32 * count + 76 ≤ length out.old) }
    ensures { (let asked = level_by moves in
        (Wrote (ranged_items asked undo range (items_in count area.now)) (over (area_bytes (shifted_items asked (items_in count area.now))) out.old) result out.new)
        × (work.new ≡ over (area_bytes (undone_items asked undo (items_in count area.now))) work.old)) }
{
    let moved = put_moved(area, count, moves, out);
    let undone = put_undo(&out[..moved.length], moved.count, undo, moves.mode, work);
    put_range(&work[..undone.length], undone.count, range, out)
}

// Whether an item with this key holds a peak.
#[tactic(auto, unfolding(calls::specs::Calls::is_peak_key))]
fn is_peak(key: &[u8]) -> bool
    ensures { result ≡ is_peak_key key.now }
{
    matches!(keys::known_key(key), Some(Key::TrackPeak | Key::AlbumPeak))
}

// Whether an item is a peak item that a shift leaves as found.
#[tactic(auto, using(crate::proofs::Kept::unmoved), unfolding(calls::specs::Calls::keeps_peak))]
fn keeps_peak(key: &[u8], value: &[u8], steps: GainSteps) -> bool
    ensures { result ≡ keeps_peak steps.0 (text_item key.now value.now) }
{
    is_peak(key) && values::shift_stored_value(key, value, steps).is_none()
}

// How many items of a well-formed area are peak items that a shift leaves as found.
fn kept_by(area: &[u8], count: usize, steps: GainSteps) -> usize
    requires { is_some (parse count area.now) ≡ true }
    ensures { result ≡ count_items (keeps_peak steps.0) (items_in count area.now) }
{
    let mut at = 0;
    let mut n = 0;
    for _ in 0..count {
        let Stepped::Item {
            key_start,
            key_end,
            value_start,
            value_end,
            ..
        } = items::step(area, at)
        else {
            return n;
        };
        if keeps_peak(
            &area[key_start..key_end],
            &area[value_start..value_end],
            steps,
        ) {
            n += 1;
        }
        at = value_end;
    }
    n
}

// How many peak items of a well-formed area level leaves as found: none where the steps differ, for it drops them there.
pub fn count_kept(area: &[u8], count: usize, left: GainSteps, right: GainSteps) -> usize
    requires { is_some (parse count area.now) ≡ true }
    ensures { result ≡ peaks_kept left.0 right.0 (items_in count area.now) }
{
    if left.0 == right.0 {
        return kept_by(area, count, left);
    }
    0
}
