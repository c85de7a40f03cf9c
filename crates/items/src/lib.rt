// The item area: exactly `count` items, one after another. It stands for the source's `ApeTag`.
#![tactic(auto)]

ghost use Rattle.std.specs.Prelude.{◌≡◌, ◌≤◌, ◌+◌, length, drop};
ghost use Rattle.lists.specs.Choice.{is_some};
ghost use Rattle.keys.specs.Keys.{same_key};
ghost use Rattle.items.specs.Items.{type_of, is_binary, as_text, parse, items_in, count_of};
ghost use Rattle.items.specs.Answers.{step_of, locate_from, end_of, place_by, count_by, locate_of, find_of, value_of, value_start, part_of, part_start, reply_to, is_there, found_repeated};

use replies::Refusal;

// What stands at a place of an area. Its three answers have names of their own: an `Option` within a `Result` says no more and is no plainer.
#[derive(Clone, Copy)]
pub enum Stepped {
    Item {
        flags: u32,
        key_start: usize,
        key_end: usize,
        value_start: usize,
        value_end: usize,
    },
    Malformed,
    End,
}

// Where an item stands: its start, the end of its key, its end.
#[derive(Clone, Copy)]
pub struct Place {
    pub start: usize,
    pub key_end: usize,
    pub end: usize,
}

// The first match, and how many items are left behind it.
#[derive(Clone, Copy)]
struct FirstMatch {
    place: Place,
    left: usize,
}

// Where a value stands, how long it is, and whether a later item has the key too.
#[derive(Clone, Copy)]
pub struct Found {
    pub start: usize,
    pub length: usize,
    pub repeated: bool,
}

// How many items there are, and how many bytes they have.
#[derive(Clone, Copy)]
pub struct Size {
    pub count: usize,
    pub length: usize,
}

// The type of an item's value, bits 2..1 of its flags: 0 text, 1 binary, 2 external, 3 reserved.
pub fn type_of(flags: u32) -> u32
    ensures { result ≡ type_of flags }
{
    flags / 2 % 4
}

// Whether an item with these flags has a binary value.
pub fn is_binary(flags: u32) -> bool
    ensures { result ≡ is_binary flags }
{
    type_of(flags) == 1
}

// The flags of a value that is set: bit 0 stays, and all others go, so that it is text.
pub fn as_text(flags: u32) -> u32
    ensures { result ≡ as_text flags }
{
    flags % 2
}

// The one step over an area: the item that begins at `at`.
pub fn step(area: &[u8], at: usize) -> Stepped
    ensures { result ≡ step_of area.now at }
{
    if area.len() <= at {
        return Stepped::End;
    }
    if area.len() - at < 8 {
        return Stepped::Malformed;
    }
    let n = frame::read_u32_le(area, at) as usize;
    let key_end = lists::find_byte(area, at + 8, 0);
    if area.len() - key_end <= n {
        return Stepped::Malformed;
    }
    Stepped::Item {
        flags: frame::read_u32_le(area, at + 4),
        key_start: at + 8,
        key_end,
        value_start: key_end + 1,
        value_end: key_end + 1 + n,
    }
}

// Whether exactly `count` items stand from `at` to the end.
fn well_formed_from(area: &[u8], mut at: usize, count: usize) -> bool
    requires { at ≤ length area.now }
    ensures { result ≡ is_some (parse count (drop at area.now)) }
{
    for _ in 0..count {
        let Stepped::Item { value_end, .. } = step(area, at) else {
            return false;
        };
        at = value_end;
    }
    at == area.len()
}

// Whether the area is exactly `count` items.
pub fn well_formed(area: &[u8], count: usize) -> bool
    ensures { result ≡ is_some (parse count area.now) }
{
    count <= area.len() / 9 && well_formed_from(area, 0, count)
}

// The first item with this key among the `count` from `at` on: what stands behind it is not tested.
fn first_match(
    area: &[u8],
    at: usize,
    count: usize,
    key: &[u8],
) -> Result<Option<FirstMatch>, Refusal>
    requires { at ≤ length area.now }
    ensures { let s = area.now in let k = key.now in
        (end_of result ≤ length s) × (locate_from s k at count ≡ place_by s result)
        × (count_of (same_key k) (items_in count (drop at s)) ≡ count_by s k result) }
{
    let mut start = at;
    for i in 0..count {
        let Stepped::Item {
            key_start,
            key_end,
            value_end: end,
            ..
        } = step(area, start)
        else {
            return Err(Refusal::MalformedArea);
        };
        if keys::same_key(key, &area[key_start..key_end]) {
            return Ok(Some(FirstMatch {
                place: Place {
                    start,
                    key_end,
                    end,
                },
                left: count - 1 - i,
            }));
        }
        start = end;
    }
    if start == area.len() {
        Ok(None)
    } else {
        Err(Refusal::MalformedArea)
    }
}

// The first item with this key among the `count` from `at` to the end, in one pass that also tests them.
fn locate_from(area: &[u8], at: usize, count: usize, key: &[u8]) -> Result<Option<Place>, Refusal>
    requires { at ≤ length area.now }
    ensures { result ≡ locate_from area.now key.now at count }
{
    let Some(m) = first_match(area, at, count, key)? else {
        return Ok(None);
    };
    if well_formed_from(area, m.place.end, m.left) {
        Ok(Some(m.place))
    } else {
        Err(Refusal::MalformedArea)
    }
}

// The first item with this key, in one pass that also tests the area.
pub fn locate(area: &[u8], count: usize, key: &[u8]) -> Result<Option<Place>, Refusal>
    ensures { result ≡ locate_of area.now count key.now }
{
    if count > area.len() / 9 {
        return Err(Refusal::MalformedArea);
    }
    locate_from(area, 0, count, key)
}

// The value of the first item with this key, in one pass: refused, none, or its place and whether a later item has the key too.
pub fn find(area: &[u8], count: usize, key: &[u8]) -> Result<Option<Found>, Refusal>
    ensures { result ≡ find_of area.now count key.now }
{
    let Some(m) = first_match(area, 0, count, key)? else {
        return if keys::is_key(key) {
            Ok(None)
        } else {
            Err(Refusal::BadKey)
        };
    };
    let place = m.place;
    let later = locate_from(area, place.end, m.left, key)?;
    if !keys::is_key(key) {
        return Err(Refusal::BadKey);
    }
    let start = place.key_end + 1;
    Ok(Some(Found {
        start,
        length: place.end - start,
        repeated: later.is_some(),
    }))
}

// The very part of the area that was found.
pub fn part<'a>(area: &'a [u8], f: Found) -> &'a [u8]
    ensures { (result.now ≡ value_of area.now f) × (result.ref_ptr.0 ≡ area.entry.ref_ptr.0) × (result.ref_ptr.1 ≡ area.entry.ref_ptr.1 + value_start area.now f) }
{
    if area.len() < f.start {
        return &area[0..0];
    }
    if area.len() - f.start < f.length {
        return &area[f.start..];
    }
    &area[f.start..f.start + f.length]
}

// The very part of the area that an answer of `find` speaks of, and an empty part at its front where nothing was found.
pub fn value<'a>(area: &'a [u8], answer: Result<Option<Found>, Refusal>) -> &'a [u8]
    ensures { (result.now ≡ part_of area.now answer) × (result.ref_ptr.0 ≡ area.entry.ref_ptr.0) × (result.ref_ptr.1 ≡ area.entry.ref_ptr.1 + part_start area.now answer) }
{
    match answer {
        Ok(Some(f)) => part(area, f),
        _ => &area[0..0],
    }
}

// The value itself, in one call: `status` is 0 or the number of the refusal, and `there` says whether a value was found, `repeated` whether a later
// item has the key too. The three are lent, since the part of the area that it answers is promised to be that very part.
pub fn get<'a>(
    area: &'a [u8],
    count: usize,
    key: &[u8],
    status: &mut u32,
    there: &mut bool,
    repeated: &mut bool,
) -> &'a [u8]
    ensures { let found = find_of area.now count key.now in
        (result.now ≡ part_of area.now found) × (result.ref_ptr.0 ≡ area.entry.ref_ptr.0) × (result.ref_ptr.1 ≡ area.entry.ref_ptr.1 + part_start area.now found)
        × (status.new ≡ reply_to found) × (there.new ≡ is_there found)
        × (repeated.new ≡ found_repeated found) }
{
    let answer = find(area, count, key);
    *status = 0;
    *there = false;
    *repeated = false;
    match answer {
        Ok(Some(f)) => {
            *there = true;
            *repeated = f.repeated;
        }
        Ok(None) => {}
        Err(r) => {
            *status = replies::number(r);
        }
    }
    value(area, answer)
}
