// How long the file would be that set, remove or undo writes. Nothing is written.
#![tactic(auto)]

ghost use Rattle.std.specs.Prelude.{◌≡◌, true, ◌≤◌, length};
ghost use Rattle.keys.specs.Keys.{is_key};
ghost use Rattle.items.specs.Items.{area_bytes, set_item, without};
ghost use Rattle.calls.specs.Gate.{items_of};
ghost use Rattle.calls.specs.Lengths.{set_length, remove_length, undo_length};
ghost use Rattle.gate.specs.Gate.{Passed};
ghost use Rattle.lengths.specs.Sizes.{last_length, length_answer};

use area_drop::{KeyTest, Mp3gain, Same};
use gate::TagArea;
use replies::Refusal;

// How long the file would be with so many items of so many bytes in place of its own. Here are the last tests of set, remove and level on a
// file: refusals 6 and 5 (undo takes the same way, where 6 cannot occur).
pub fn last_length(file: &[u8], size: usize, count: usize) -> Result<usize, Refusal>
    requires { length file.now ≤ 16777216 }
    ensures { result ≡ length_answer (last_length file.now size count) }
{
    if replies::COUNT_LIMIT < count {
        return Err(Refusal::TagTooLarge);
    }
    if replies::AREA_LIMIT < size {
        return Err(Refusal::TagTooLarge);
    }
    let cut = ape_replace::ape_tag_parts(file);
    let n = ape_replace::file_length(cut, ape_write::tag_length(size, count));
    if replies::FILE_LIMIT < n {
        return Err(Refusal::NoRoom);
    }
    Ok(n)
}

// The same for a set of an item, in a file that is fit for editing.
fn item_length(file: &[u8], place: TagArea, key: &[u8], value: &[u8]) -> Result<usize, Refusal>
    requires { (Passed file.now place) × (length file.now ≤ 16777216) × (is_key key.now ≡ true) × (length value.now ≤ 32768) }
    ensures { let ts = set_item key.now value.now (items_of file.now) in
        result ≡ length_answer (last_length file.now (length (area_bytes ts)) (length ts)) }
{
    let area = &file[place.start..place.end];
    let p = items::locate(area, place.count, key)?;
    let m = area_edit::measure_set(area, place.count, key, value, p);
    last_length(file, m.length, m.count)
}

// How long the file would be that set_ape_item writes: refusals 1, 3, 4, 8, 6 and 5.
pub fn set_length(file: &[u8], key: &[u8], value: &[u8]) -> Result<usize, Refusal>
    ensures { result ≡ length_answer (set_length file.now key.now value.now) }
{
    if replies::FILE_LIMIT < file.len() {
        return Err(Refusal::FileTooLong);
    }
    if !keys::is_key(key) {
        return Err(Refusal::BadKey);
    }
    if !utf8::is_utf8(value) {
        return Err(Refusal::NotUtf8);
    }
    let place = gate::gate(file)?;
    if replies::AREA_LIMIT < value.len() {
        return Err(Refusal::TagTooLarge);
    }
    item_length(file, place, key, value)
}

// The same for a drop of the items whose keys pass the test, in a file that is fit for editing.
fn drop_length<T: KeyTest>(file: &[u8], place: TagArea, goes: &T) -> Result<usize, Refusal>
    requires { (Passed file.now place) × (length file.now ≤ 16777216) }
    ensures { let ts = without (T.test goes.now) (items_of file.now) in
        result ≡ length_answer (last_length file.now (length (area_bytes ts)) (length ts)) }
{
    let area = &file[place.start..place.end];
    let Some(left) = area_drop::measure_without_keys(area, place.count, goes) else {
        return Err(Refusal::NotEditable);
    };
    last_length(file, left.length, left.count)
}

// How long the file would be that remove_ape_item writes: refusals 1, 3, 8, 6 and 5.
pub fn remove_length(file: &[u8], key: &[u8]) -> Result<usize, Refusal>
    ensures { result ≡ length_answer (remove_length file.now key.now) }
{
    if replies::FILE_LIMIT < file.len() {
        return Err(Refusal::FileTooLong);
    }
    if !keys::is_key(key) {
        return Err(Refusal::BadKey);
    }
    let place = gate::gate(file)?;
    drop_length(file, place, &Same { key })
}

// How long the file would be that undo writes: refusals 1, 7, 8, 14, 10 and 5. Of the gains it asks only whether there are left ones.
pub fn undo_length(file: &[u8], left: &[u8], right: &[u8]) -> Result<usize, Refusal>
    ensures { result ≡ length_answer (undo_length file.now left.now right.now) }
{
    let ready = checks::check_undo(file, 0 < left.len())?;
    drop_length(file, ready.area, &Mp3gain)
}
