// Set and remove on a whole file that the gate passes.
#![tactic(auto)]

ghost use Rattle.std.specs.Prelude.{◌≡◌, ℕ, Bool, List, true, ◌≤◌, ◌+◌, ◌-◌, length};
ghost use Rattle.std.specs.Fn.{FnReturnsAt};
ghost use Rattle.lists.specs.Choice.{is_some};
ghost use Rattle.lists.specs.Write.{over};
ghost use Rattle.keys.specs.Keys.{is_key};
ghost use Rattle.items.specs.Items.{parse, items_in, set_item, without};
ghost use Rattle.area_drop.specs.Drops.{Tests};
ghost use Rattle.ape_write.specs.Answers.{written_answer, written_bytes};
ghost use Rattle.calls.specs.Gate.{items_of};
ghost use Rattle.calls.specs.Calls.{set_plan, remove_plan};
ghost use Rattle.gate.specs.Gate.{Passed};
ghost use Rattle.edit.specs.Finish.{tag_plan};

use area_drop::{KeyTest, Same};
use gate::TagArea;
use replies::Refusal;

// How many bytes the items of a tag may have while they are edited: those of a file that is fit for editing, one more, and some.
pub const ROOM: usize = 66048;

// The same for a small tag: room of this size costs less to clear.
pub const SMALL_ROOM: usize = 4096;

// The file with the items of a well-formed area in place of its own. Here are the last tests of set, remove and level on a file: refusals 6 and 5
// (undo takes the same way, where 6 cannot occur).
pub fn finish(file: &[u8], area: &[u8], count: usize, out: &mut [u8]) -> Result<usize, Refusal>
    requires { (length file.now ≤ 16777216) × (is_some (parse count area.now) ≡ true) }
    ensures { let plan = tag_plan file.now (items_in count area.now) (length out.old) in
        (result ≡ written_answer plan) × (out.new ≡ over (written_bytes plan) out.old) }
{
    if replies::COUNT_LIMIT < count {
        return Err(Refusal::TagTooLarge);
    }
    if replies::AREA_LIMIT < area.len() {
        return Err(Refusal::TagTooLarge);
    }
    ape_replace::replace_items(file, area, count, out)
}

// Sets an item of a file that is fit for editing. The items are made in `new`.
fn set_item_in(
    file: &[u8],
    place: TagArea,
    key: &[u8],
    value: &[u8],
    new: &mut [u8],
    out: &mut [u8],
) -> Result<usize, Refusal>
    requires { (Passed file.now place) × (length file.now ≤ 16777216) × (is_key key.now ≡ true) × (length value.now ≤ 32768)
        × (place.end - place.start + 9 + length key.now + length value.now ≤ length new.old) }
    ensures { let plan = tag_plan file.now (set_item key.now value.now (items_of file.now)) (length out.old) in
        (result ≡ written_answer plan) × (out.new ≡ over (written_bytes plan) out.old) }
{
    let area = &file[place.start..place.end];
    let p = items::locate(area, place.count, key)?;
    let m = area_edit::write_set(area, place.count, key, value, p, new);
    finish(file, &new[..m.length], m.count, out)
}

// The same in room that is large enough.
fn set_item(
    file: &[u8],
    place: TagArea,
    key: &[u8],
    value: &[u8],
    out: &mut [u8],
) -> Result<usize, Refusal>
    requires { (Passed file.now place) × (length file.now ≤ 16777216) × (is_key key.now ≡ true) × (length value.now ≤ 32768) }
    ensures { let plan = tag_plan file.now (set_item key.now value.now (items_of file.now)) (length out.old) in
        (result ≡ written_answer plan) × (out.new ≡ over (written_bytes plan) out.old) }
{
    if place.end - place.start + 9 + key.len() + value.len() <= SMALL_ROOM {
        let mut new = [0u8; SMALL_ROOM];
        return set_item_in(file, place, key, value, &mut new, out);
    }
    let mut new = [0u8; ROOM];
    set_item_in(file, place, key, value, &mut new, out)
}

// The file with this value at the first item with this key, or with one more item; later items with the key stay as they are: refusals 1, 3, 4,
// 8, 6 and 5.
pub fn set_ape_item(file: &[u8], key: &[u8], value: &[u8], out: &mut [u8]) -> Result<usize, Refusal>
    ensures { let plan = set_plan file.now key.now value.now (length out.old) in
        (result ≡ written_answer plan) × (out.new ≡ over (written_bytes plan) out.old) }
{
    if replies::FILE_LIMIT < file.len() {
        return Err(Refusal::FileTooLong);
    }
    if !keys::is_key(key) {
        return Err(Refusal::BadKey);
    }
    if !utf8::is_utf8(value) {
        return Err(Refusal::NotUtf8);
    }
    let place = gate::gate(file)?;
    if replies::AREA_LIMIT < value.len() {
        return Err(Refusal::TagTooLarge);
    }
    set_item(file, place, key, value, out)
}

// Drops the items of a file that is fit for editing whose keys pass the test. Those that stay are written into `new`.
fn drop_keys_in<T: KeyTest>(
    file: &[u8],
    place: TagArea,
    goes: &T,
    new: &mut [u8],
    out: &mut [u8],
) -> Result<usize, Refusal>
    requires { (Passed file.now place) × (length file.now ≤ 16777216) × (place.end - place.start ≤ length new.old) }
    ensures { let plan = tag_plan file.now (without (T.test goes.now) (items_of file.now)) (length out.old) in
        (result ≡ written_answer plan) × (out.new ≡ over (written_bytes plan) out.old) }
{
    let area = &file[place.start..place.end];
    let Some(left) = area_drop::measure_without_keys(area, place.count, goes) else {
        return Err(Refusal::NotEditable);
    };
    let n = area_drop::write_without_keys(area, place.count, goes, new);
    finish(file, &new[..n], left.count, out)
}

// The same in room that is large enough.
pub fn drop_keys<T: KeyTest>(
    file: &[u8],
    place: TagArea,
    goes: &T,
    out: &mut [u8],
) -> Result<usize, Refusal>
    requires { (Passed file.now place) × (length file.now ≤ 16777216) }
    ensures { let plan = tag_plan file.now (without (T.test goes.now) (items_of file.now)) (length out.old) in
        (result ≡ written_answer plan) × (out.new ≡ over (written_bytes plan) out.old) }
{
    if place.end - place.start <= SMALL_ROOM {
        let mut new = [0u8; SMALL_ROOM];
        return drop_keys_in(file, place, goes, &mut new, out);
    }
    let mut new = [0u8; ROOM];
    drop_keys_in(file, place, goes, &mut new, out)
}

// `drop_keys_in` by a closure.
fn drop_items_in<F: Fn(&[u8]) -> bool + Copy>(
    file: &[u8],
    place: TagArea,
    goes: F,
    new: &mut [u8],
    out: &mut [u8],
) -> Result<usize, Refusal>
    requires callable { F.IsAlwaysCallable goes }
    requires tests { (p : List ℕ → Bool) × Tests (FnReturnsAt F.Fn goes) p }
    requires fit { (Passed file.now place) × (length file.now ≤ 16777216) × (place.end - place.start ≤ length new.old) }
    ensures { (p : List ℕ → Bool) → Tests (FnReturnsAt F.Fn goes) p → let plan = tag_plan file.now (without p (items_of file.now)) (length out.old) in
        (result ≡ written_answer plan) × (out.new ≡ over (written_bytes plan) out.old) }
{
    let area = &file[place.start..place.end];
    let Some(left) = area_drop::measure_without(area, place.count, goes) else {
        return Err(Refusal::NotEditable);
    };
    let to = area_drop::write_without(area, place.count, goes, new);
    finish(file, &new[..to], left.count, out)
}

// `drop_keys` by a closure.
pub fn drop_items<F: Fn(&[u8]) -> bool + Copy>(
    file: &[u8],
    place: TagArea,
    goes: F,
    out: &mut [u8],
) -> Result<usize, Refusal>
    requires callable { F.IsAlwaysCallable goes }
    requires tests { (p : List ℕ → Bool) × Tests (FnReturnsAt F.Fn goes) p }
    requires fit { (Passed file.now place) × (length file.now ≤ 16777216) }
    ensures { (p : List ℕ → Bool) → Tests (FnReturnsAt F.Fn goes) p → let plan = tag_plan file.now (without p (items_of file.now)) (length out.old) in
        (result ≡ written_answer plan) × (out.new ≡ over (written_bytes plan) out.old) }
{
    if place.end - place.start <= SMALL_ROOM {
        let mut new = [0u8; SMALL_ROOM];
        return drop_items_in(file, place, goes, &mut new, out);
    }
    let mut new = [0u8; ROOM];
    drop_items_in(file, place, goes, &mut new, out)
}

// The file without the items with this key, however many they are: refusals 1, 3, 8, 6 and 5.
pub fn remove_ape_item(file: &[u8], key: &[u8], out: &mut [u8]) -> Result<usize, Refusal>
    ensures { let plan = remove_plan file.now key.now (length out.old) in
        (result ≡ written_answer plan) × (out.new ≡ over (written_bytes plan) out.old) }
{
    if replies::FILE_LIMIT < file.len() {
        return Err(Refusal::FileTooLong);
    }
    if !keys::is_key(key) {
        return Err(Refusal::BadKey);
    }
    let place = gate::gate(file)?;
    drop_keys(file, place, &Same { key }, out)
}

#[cfg(test)]
mod tests {
    use super::*;

    // The file without the items of this key.
    fn without(file: &[u8], key: &[u8], out: &mut [u8]) -> Result<usize, Refusal> {
        if replies::FILE_LIMIT < file.len() {
            return Err(Refusal::FileTooLong);
        }
        let place = gate::gate(file)?;
        drop_items(file, place, |other| keys::same_key(key, other), out)
    }

    // A file of two bytes and a tag of two items, and the same without the first of them.
    #[test]
    fn drops_by_a_closure(rt: HostRuntime) {
        let file = *b"abAPETAGEX\xd0\x07\0\0\x40\0\0\0\x02\0\0\0\0\0\0\xa0\0\0\0\0\0\0\0\0\
            \x01\0\0\0\0\0\0\0ARTIST\0x\x02\0\0\0\0\0\0\0TITLE\0yz\
            APETAGEX\xd0\x07\0\0\x40\0\0\0\x02\0\0\0\0\0\0\x80\0\0\0\0\0\0\0\0";
        let left = *b"abAPETAGEX\xd0\x07\0\0\x30\0\0\0\x01\0\0\0\0\0\0\xa0\0\0\0\0\0\0\0\0\
            \x02\0\0\0\0\0\0\0TITLE\0yz\
            APETAGEX\xd0\x07\0\0\x30\0\0\0\x01\0\0\0\0\0\0\x80\0\0\0\0\0\0\0\0................";
        let mut out = [b'.'; 98];
        assert!(rt; without(&file, b"artist", &mut out).is_ok_and(|n| n == 82));
        assert!(rt; out == left);
        let mut short = [b'.'; 81];
        assert!(rt; without(&file, b"artist", &mut short).is_err_and(|r| r == Refusal::NoRoom));
        assert!(rt; short == [b'.'; 81]);
    }
}
