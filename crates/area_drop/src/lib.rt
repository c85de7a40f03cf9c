// Edits of a lent item area that drop items: those that stay are written to the front of a lent output.
#![tactic(auto)]

ghost use Rattle.std.specs.Prelude.{◌≡◌, ℕ, Bool, List, true, ◌≤◌, length};
ghost use Rattle.std.specs.Fn.{FnReturnsAt};
ghost use Rattle.lists.specs.Choice.{is_some};
ghost use Rattle.lists.specs.Write.{over};
ghost use Rattle.keys.specs.Keys.{same_key, is_mp3gain_key, is_undone, is_replay_gain};
ghost use Rattle.items.specs.Items.{area_bytes, parse, items_in, without};
ghost use Rattle.area_edit.specs.Edits.{answer, bytes};
ghost use Rattle.area_drop.specs.Drops.{Tests, measured_of, remove_plan, drop_plan};

use items::{Size, Stepped};
use replies::Refusal;

// A test of keys: the items whose keys pass it go. A trait, since of a closure each call would have to be shown that it may be called and what it answers.
pub trait KeyTest {
    ghost test: { Self → List ℕ → Bool };

    fn passes(&self, key: &[u8]) -> bool
        ensures { result ≡ test self.now key.now };
}

// The keys that are the same as this one, in any letter case.
#[derive(Clone, Copy)]
pub struct Same<'a> {
    pub key: &'a [u8],
}

impl<'a> KeyTest for Same<'a> {
    ghost test = { λ t. same_key t.key.now };

    fn passes(&self, key: &[u8]) -> bool {
        keys::same_key(self.key, key)
    }
}

// REPLAYGAIN_KEYS.
#[derive(Clone, Copy)]
pub struct ReplayGain;

impl KeyTest for ReplayGain {
    ghost test = { λ t. is_replay_gain };

    fn passes(&self, key: &[u8]) -> bool {
        keys::is_replaygain(key)
    }
}

// UNDONE_KEYS.
#[derive(Clone, Copy)]
pub struct Undone;

impl KeyTest for Undone {
    ghost test = { λ t. is_undone };

    fn passes(&self, key: &[u8]) -> bool {
        keys::is_undone(key)
    }
}

// The eight keys.
#[derive(Clone, Copy)]
pub struct Mp3gain;

impl KeyTest for Mp3gain {
    ghost test = { λ t. is_mp3gain_key };

    fn passes(&self, key: &[u8]) -> bool {
        keys::is_mp3gain(key)
    }
}

// What is left of an area without the items whose keys pass the test, in one pass that also tests the area.
pub fn measure_without_keys<T: KeyTest>(area: &[u8], count: usize, goes: &T) -> Option<Size>
    ensures { result ≡ measured_of (without (T.test goes.now)) count area.now }
{
    if count > area.len() / 9 {
        return None;
    }
    let mut at = 0;
    let mut n = 0;
    let mut size = 0;
    for _ in 0..count {
        let Stepped::Item {
            key_start,
            key_end,
            value_end,
            ..
        } = items::step(area, at)
        else {
            return None;
        };
        if !goes.passes(&area[key_start..key_end]) {
            n += 1;
            size += value_end - at;
        }
        at = value_end;
    }
    if at == area.len() {
        Some(Size {
            count: n,
            length: size,
        })
    } else {
        None
    }
}

// Writes the items of a well-formed area whose keys do not pass the test to the front of `out`.
pub fn write_without_keys<T: KeyTest>(area: &[u8], count: usize, goes: &T, out: &mut [u8]) -> usize
    requires formed { is_some (parse count area.now) ≡ true }
    requires room { length (area_bytes (without (T.test goes.now) (items_in count area.now))) ≤ length out.old }
    ensures { let new = area_bytes (without (T.test goes.now) (items_in count area.now)) in
        (result ≡ length new) × (out.new ≡ over new out.old) }
{
    let mut at = 0;
    let mut o = 0;
    for _ in 0..count {
        let Stepped::Item {
            key_start,
            key_end,
            value_end,
            ..
        } = items::step(area, at)
        else {
            return o;
        };
        if !goes.passes(&area[key_start..key_end]) {
            o = lists::put_part(out, o, area, at, value_end);
        }
        at = value_end;
    }
    o
}

// `measure_without_keys` by a closure.
pub fn measure_without<F: Fn(&[u8]) -> bool>(area: &[u8], count: usize, goes: F) -> Option<Size>
    requires { F.IsAlwaysCallable goes }
    ensures { (p : List ℕ → Bool) → Tests (FnReturnsAt F.Fn goes) p → result ≡ measured_of (without p) count area.now }
{
    if area.len() / 9 < count {
        return None;
    }
    let mut at = 0;
    let mut n = 0;
    let mut size = 0;
    for _ in 0..count {
        let Stepped::Item {
            key_start,
            key_end,
            value_end,
            ..
        } = items::step(area, at)
        else {
            return None;
        };
        if !goes(&area[key_start..key_end]) {
            n += 1;
            size += value_end - at;
        }
        at = value_end;
    }
    if at == area.len() {
        Some(Size {
            count: n,
            length: size,
        })
    } else {
        None
    }
}

// `write_without_keys` by a closure.
pub fn write_without<F: Fn(&[u8]) -> bool>(
    area: &[u8],
    count: usize,
    goes: F,
    out: &mut [u8],
) -> usize
    requires callable { F.IsAlwaysCallable goes }
    requires formed { is_some (parse count area.now) ≡ true }
    requires room { (p : List ℕ → Bool) × Tests (FnReturnsAt F.Fn goes) p × (length (area_bytes (without p (items_in count area.now))) ≤ length out.old) }
    ensures { (p : List ℕ → Bool) → Tests (FnReturnsAt F.Fn goes) p → let new = area_bytes (without p (items_in count area.now)) in
        (result ≡ length new) × (out.new ≡ over new out.old) }
{
    let mut at = 0;
    let mut to = 0;
    for _ in 0..count {
        let Stepped::Item {
            key_start,
            key_end,
            value_end,
            ..
        } = items::step(area, at)
        else {
            return to;
        };
        if !goes(&area[key_start..key_end]) {
            to = lists::put_part(out, to, area, at, value_end);
        }
        at = value_end;
    }
    to
}

// The area without the items whose keys pass the test.
fn edit_without<T: KeyTest>(
    area: &[u8],
    count: usize,
    goes: &T,
    out: &mut [u8],
) -> Result<Size, Refusal>
    ensures { let plan = drop_plan (T.test goes.now) count area.now (length out.old) in
        (result ≡ answer plan) × (out.new ≡ over (bytes plan) out.old) }
{
    let Some(size) = measure_without_keys(area, count, goes) else {
        return Err(Refusal::MalformedArea);
    };
    if out.len() < size.length || size.length > replies::FILE_LIMIT {
        return Err(Refusal::NoRoom);
    }
    write_without_keys(area, count, goes, out);
    Ok(size)
}

// The area without the items that have this key, however many they are.
pub fn remove(area: &[u8], count: usize, key: &[u8], out: &mut [u8]) -> Result<Size, Refusal>
    ensures { let plan = remove_plan key.now count area.now (length out.old) in
        (result ≡ answer plan) × (out.new ≡ over (bytes plan) out.old) }
{
    if keys::is_key(key) {
        edit_without(area, count, &Same { key }, out)
    } else if items::well_formed(area, count) {
        Err(Refusal::BadKey)
    } else {
        Err(Refusal::MalformedArea)
    }
}

// The area without REPLAYGAIN_KEYS.
pub fn remove_replaygain(area: &[u8], count: usize, out: &mut [u8]) -> Result<Size, Refusal>
    ensures { let plan = drop_plan is_replay_gain count area.now (length out.old) in
        (result ≡ answer plan) × (out.new ≡ over (bytes plan) out.old) }
{
    edit_without(area, count, &ReplayGain, out)
}

// The area without UNDONE_KEYS.
pub fn drop_undone(area: &[u8], count: usize, out: &mut [u8]) -> Result<Size, Refusal>
    ensures { let plan = drop_plan is_undone count area.now (length out.old) in
        (result ≡ answer plan) × (out.new ≡ over (bytes plan) out.old) }
{
    edit_without(area, count, &Undone, out)
}

// The area without the eight keys.
pub fn take_mp3gain(area: &[u8], count: usize, out: &mut [u8]) -> Result<Size, Refusal>
    ensures { let plan = drop_plan is_mp3gain_key count area.now (length out.old) in
        (result ≡ answer plan) × (out.new ≡ over (bytes plan) out.old) }
{
    edit_without(area, count, &Mp3gain, out)
}

#[cfg(test)]
mod tests {
    use super::*;

    // The items without those of this key: how many, and how many bytes are written.
    fn without(area: &[u8], count: usize, key: &[u8], out: &mut [u8]) -> Option<(usize, usize)> {
        let goes = |other: &[u8]| keys::same_key(key, other);
        let Some(size) = measure_without(area, count, goes) else {
            return None;
        };
        if out.len() < size.length {
            return None;
        }
        Some((size.count, write_without(area, count, goes, out)))
    }

    // ARTIST, TITLE and Artist, 16 bytes each: without the artists the second item stays.
    #[test]
    fn drops_by_a_closure(rt: HostRuntime) {
        let area =
            *b"\x01\0\0\0\0\0\0\0ARTIST\0x\x02\0\0\0\0\0\0\0TITLE\0yz\x01\0\0\0\0\0\0\0Artist\0w";
        let left = *b"\x02\0\0\0\0\0\0\0TITLE\0yz................................";
        let mut out = [b'.'; 48];
        assert_eq!(rt; without(&area, 3, b"artist", &mut out), Some((1, 16)));
        assert!(rt; out == left);
        assert_eq!(rt;
            without(&area, 2, b"artist", &mut out),
            None,
            "an item more than its count"
        );
        assert_eq!(rt;
            without(&area, 6, b"artist", &mut out),
            None,
            "more items than have room"
        );
        assert!(rt; out == left);
    }
}
