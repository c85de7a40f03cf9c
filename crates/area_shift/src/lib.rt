// The stored values of a lent item area after so many steps: the new area is written to the front of a lent output.
#![tactic(auto)]

ghost use Rattle.std.specs.Prelude.{◌≡◌, true, ◌≤◌, ◌<◌, ◌+◌, ◌-◌, length, leb};
ghost use Rattle.lists.specs.Choice.{is_some};
ghost use Rattle.lists.specs.Write.{over, splice};
ghost use Rattle.replies.specs.Limits.{file_limit};
ghost use Rattle.items.specs.Items.{area_bytes, parse, items_in};
ghost use Rattle.area_edit.specs.Edits.{answer, bytes};
ghost use Rattle.calls.specs.Calls.{shift_stored_gain};
ghost use Rattle.area_shift.specs.Shift as S;

use frame::{GainMode, GainSteps};
use items::{Size, Stepped};
use replies::Refusal;

// Whether an item goes before the shift: under W a range of which a number leaves 0..255.
fn goes(key: &[u8], value: &[u8], steps: GainSteps, mode: GainMode) -> bool
    ensures { result ≡ S.goes mode steps.0 key.now value.now }
{
    match mode {
        GainMode::Saturating => false,
        GainMode::Wrapping => values::range_wraps_out(key, value, steps),
    }
}

// Writes the item from `at` to `end`, whose key ends at `stop`, with its new text or as found into `out` from `o`.
fn put_item(
    out: &mut [u8],
    o: usize,
    area: &[u8],
    at: usize,
    stop: usize,
    end: usize,
    steps: GainSteps,
) -> usize
    requires { (at + 8 ≤ stop) × (stop < end) × (end ≤ length area.now)
        × (o + length (S.shifted_bytes steps.0 area.now at stop end) ≤ length out.old) }
    ensures { let new = S.shifted_bytes steps.0 area.now at stop end in
        (result ≡ o + length new) × (out.new ≡ splice out.old o new) }
{
    let key = &area[at + 8..stop];
    let value = &area[stop + 1..end];
    let Some(text) = values::shift_stored_value(key, value, steps) else {
        return lists::put_part(out, o, area, at, end);
    };
    area_edit::put_changed(out, o, area, at, stop, text.as_slice())
}

// Writes what the shift leaves of a well-formed area to the front of `out`.
pub fn write_shifted(
    area: &[u8],
    count: usize,
    steps: GainSteps,
    mode: GainMode,
    out: &mut [u8],
) -> Size
    requires { (is_some (parse count area.now) ≡ true)
        × (length (area_bytes (shift_stored_gain mode steps.0 (items_in count area.now))) ≤ length out.old) }
    ensures { let ts = shift_stored_gain mode steps.0 (items_in count area.now) in
        (result.count ≡ length ts) × (result.length ≡ length (area_bytes ts)) × (out.new ≡ over (area_bytes ts) out.old) }
{
    let mut at = 0;
    let mut n = 0;
    let mut o = 0;
    for _ in 0..count {
        let Stepped::Item {
            key_start,
            key_end,
            value_start,
            value_end,
            ..
        } = items::step(area, at)
        else {
            return Size {
                count: 0,
                length: 0,
            };
        };
        if !goes(
            &area[key_start..key_end],
            &area[value_start..value_end],
            steps,
            mode,
        ) {
            o = put_item(out, o, area, at, key_end, value_end, steps);
            n += 1;
        }
        at = value_end;
    }
    Size {
        count: n,
        length: o,
    }
}

// How many bytes the item from `at` to `end`, whose key ends at `stop`, has with its new text or as found.
fn item_size(area: &[u8], at: usize, stop: usize, end: usize, steps: GainSteps) -> usize
    requires { (at + 8 ≤ stop) × (stop < end) × (end ≤ length area.now) }
    ensures { (result ≡ length (S.shifted_bytes steps.0 area.now at stop end)) × (result ≤ end - at + 32) }
{
    let key = &area[at + 8..stop];
    let value = &area[stop + 1..end];
    let Some(text) = values::shift_stored_value(key, value, steps) else {
        return end - at;
    };
    stop + 1 - at + text.len
}

// Whether what the shift leaves of a well-formed area has at most `limit` bytes. Stops at the item that passes it, so that no sum overflows.
fn fits_shifted(area: &[u8], count: usize, steps: GainSteps, mode: GainMode, limit: usize) -> bool
    requires { (is_some (parse count area.now) ≡ true) × (limit ≤ file_limit) }
    ensures { result ≡ leb (length (area_bytes (shift_stored_gain mode steps.0 (items_in count area.now)))) limit }
{
    if area.len() <= limit {
        if count <= (limit - area.len()) / 32 {
            return true;
        }
    }
    let mut at = 0;
    let mut size = 0;
    for _ in 0..count {
        let Stepped::Item {
            key_start,
            key_end: stop,
            value_start,
            value_end: end,
            ..
        } = items::step(area, at)
        else {
            return false;
        };
        if !goes(&area[key_start..stop], &area[value_start..end], steps, mode) {
            size += item_size(area, at, stop, end, steps);
            if size > limit {
                return false;
            }
        }
        at = end;
    }
    true
}

// The area after so many steps, each item by itself, also where a key comes twice: refusals 12, 2 and 5.
pub fn shift_stored_gain(
    area: &[u8],
    count: usize,
    steps: GainSteps,
    mode: GainMode,
    out: &mut [u8],
) -> Result<Size, Refusal>
    ensures { let plan = S.shift_plan mode steps.0 count area.now (length out.old) in
        (result ≡ answer plan) × (out.new ≡ over (bytes plan) out.old) }
{
    if !items::well_formed(area, count) {
        return Err(Refusal::MalformedArea);
    }
    if !slip::is_step(steps.0) {
        return Err(Refusal::StepOutOfRange);
    }
    let limit = out.len().min(replies::FILE_LIMIT);
    if !fits_shifted(area, count, steps, mode, limit) {
        return Err(Refusal::NoRoom);
    }
    Ok(write_shifted(area, count, steps, mode, out))
}
