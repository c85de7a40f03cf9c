// What an edit of a lent item area answers, and set: the new area is written to the front of a lent output.
#![tactic(auto)]

ghost use Rattle.std.specs.Prelude.{◌≡◌, ◌≤◌, ◌<◌, ◌+◌, ◌-◌, length};
ghost use Rattle.lists.specs.Write.{over, splice};
ghost use Rattle.replies.specs.Limits.{file_limit};
ghost use Rattle.items.specs.Items.{area_bytes, items_in, set_item};
ghost use Rattle.items.specs.Answers.{locate_of};
ghost use Rattle.area_edit.specs.Edits.{answer, bytes, set_plan, changed, fresh, replaced, appended};

use items::{Place, Size};
use replies::Refusal;

// What set makes of a well-formed area, `place` being where the first item with the key stands.
pub fn measure_set(
    area: &[u8],
    count: usize,
    key: &[u8],
    value: &[u8],
    place: Option<Place>,
) -> Size
    requires { (Ok place ≡ locate_of area.now count key.now) × (length key.now ≤ 255) × (length value.now ≤ file_limit) }
    ensures { let ts = set_item key.now value.now (items_in count area.now) in
        (result.count ≡ length ts) × (result.length ≡ length (area_bytes ts)) }
{
    match place {
        Some(p) => Size {
            count,
            length: p.key_end + 1 + value.len() + (area.len() - p.end),
        },
        None => Size {
            count: count + 1,
            length: area.len() + 9 + key.len() + value.len(),
        },
    }
}

// Writes the item that begins at `start`, and whose key ends at `stop`, with another value into `out` from `at`: of
// its flags, only bit 0 stays.
pub fn put_changed(
    out: &mut [u8],
    at: usize,
    area: &[u8],
    start: usize,
    stop: usize,
    value: &[u8],
) -> usize
    requires { (start + 8 ≤ stop) × (stop < length area.now) × (length value.now ≤ file_limit)
        × (at + (stop + 1 - start) + length value.now ≤ length out.old) }
    ensures { let new = changed area.now start stop value.now in
        (result ≡ at + length new) × (out.new ≡ splice out.old at new) × (result ≡ at + (stop + 1 - start) + length value.now) }
{
    let a = lists::put_u32_le(out, at, value.len() as u32);
    let b = lists::put_u32_le(out, a, items::as_text(frame::read_u32_le(area, start + 4)));
    let c = lists::put_part(out, b, area, start + 8, stop + 1);
    lists::put(out, c, value)
}

// Writes an item, its key in upper case, into `out` from `at`.
pub fn put_item(out: &mut [u8], at: usize, key: &[u8], value: &[u8]) -> usize
    requires { (length value.now ≤ file_limit) × (at + 9 + length key.now + length value.now ≤ length out.old) }
    ensures { (result ≡ at + length (fresh key.now value.now))
        × (out.new ≡ splice out.old at (fresh key.now value.now)) }
{
    let a = lists::put_u32_le(out, at, value.len() as u32);
    let b = lists::put_u32_le(out, a, 0);
    let c = keys::put_upper(out, b, key);
    let d = lists::put(out, c, b"\0");
    lists::put(out, d, value)
}

// Writes the area with another value in the item at `p` to the front of `out`.
fn put_replaced(area: &[u8], p: Place, value: &[u8], out: &mut [u8]) -> usize
    requires { (p.start + 8 ≤ p.key_end) × (p.key_end < p.end) × (p.end ≤ length area.now) × (length value.now ≤ file_limit)
        × (p.key_end + 1 + length value.now + (length area.now - p.end) ≤ length out.old) }
    ensures { let new = replaced area.now p.start p.key_end p.end value.now in
        (result ≡ length new) × (out.new ≡ over new out.old) }
{
    let a = lists::put_part(out, 0, area, 0, p.start);
    let b = put_changed(out, a, area, p.start, p.key_end, value);
    lists::put_part(out, b, area, p.end, area.len())
}

// Writes the area with one more item behind it, its key in upper case, to the front of `out`.
fn put_appended(area: &[u8], key: &[u8], value: &[u8], out: &mut [u8]) -> usize
    requires { (length value.now ≤ file_limit) × (length area.now + 9 + length key.now + length value.now ≤ length out.old) }
    ensures { let new = appended area.now key.now value.now in
        (result ≡ length new) × (out.new ≡ over new out.old) }
{
    let a = lists::put(out, 0, area);
    put_item(out, a, key, value)
}

// Writes what set makes of a well-formed area to the front of `out`, and answers what `measure_set` does.
pub fn write_set(
    area: &[u8],
    count: usize,
    key: &[u8],
    value: &[u8],
    place: Option<Place>,
    out: &mut [u8],
) -> Size
    requires { (Ok place ≡ locate_of area.now count key.now) × (length value.now ≤ file_limit)
        × (length (area_bytes (set_item key.now value.now (items_in count area.now))) ≤ length out.old) }
    ensures { let ts = set_item key.now value.now (items_in count area.now) in
        (result.count ≡ length ts) × (result.length ≡ length (area_bytes ts)) × (out.new ≡ over (area_bytes ts) out.old) }
{
    match place {
        Some(p) => Size {
            count,
            length: put_replaced(area, p, value, out),
        },
        None => Size {
            count: count + 1,
            length: put_appended(area, key, value, out),
        },
    }
}

// The area with this value at the first item with this key, which keeps its spelling and place, or with one more item. Later items with the key
// stay as they are.
pub fn set(
    area: &[u8],
    count: usize,
    key: &[u8],
    value: &[u8],
    out: &mut [u8],
) -> Result<Size, Refusal>
    ensures { let plan = set_plan key.now value.now count area.now (length out.old) in
        (result ≡ answer plan) × (out.new ≡ over (bytes plan) out.old) }
{
    let place = items::locate(area, count, key)?;
    if !keys::is_key(key) {
        return Err(Refusal::BadKey);
    }
    if !utf8::is_utf8(value) {
        return Err(Refusal::NotUtf8);
    }
    if value.len() > replies::FILE_LIMIT {
        return Err(Refusal::NoRoom);
    }
    let n = measure_set(area, count, key, value, place).length;
    if out.len() < n || n > replies::FILE_LIMIT {
        return Err(Refusal::NoRoom);
    }
    Ok(write_set(area, count, key, value, place, out))
}
