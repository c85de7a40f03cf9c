// The gains in the sound of audio, read into two lists and written from two lists.
#![tactic(auto)]

ghost use Rattle.std.specs.Prelude.{◌≡◌, List, ◌++◌, ◌≤◌, ◌<◌, ◌+◌, ◌*◌, ◌/◌, length, take, drop, set};
ghost use Rattle.lists.specs.Write.{over};
ghost use Rattle.layer3.specs.Sizes.{SizeTable, LongFrame};
ghost use Rattle.layer3.specs.Bits.{read_bits};
ghost use Rattle.layer3.specs.Fields.{Field, fields_from, read_left, read_right, write_fields};
ghost use Rattle.layer3.specs.Walk.{walk, fields_of, left_gains, right_gains, with_gains};
ghost use Rattle.sound_lists.specs.Lists.{put_first, behind, filled, lefts_from, rights_from};

use layer3::Frame;

// Where a walk has come to, in the audio and in the list of each side.
#[derive(Clone, Copy)]
pub struct Places {
    pub at: usize,
    pub left: usize,
    pub right: usize,
}

// Puts the gain at a place of a list, if it is there, into the field that begins at a bit, and answers the next place.
fn put_field(out: &mut [u8], bit: usize, gains: &[u8], i: usize) -> usize
    requires { bit / 8 + 1 < length out.old }
    ensures { (out.new ≡ put_first out.old bit (drop i gains.now)) × (drop result gains.now ≡ behind (drop i gains.now)) }
{
    if i < gains.len() {
        layer3::write_bits(out, bit, gains[i]);
        i + 1
    } else {
        i
    }
}

// `put_frame` for one kind of frame.
fn put_granules<const MPEG1: bool, const MONO: bool>(
    out: &mut [u8],
    h: Frame,
    left: &[u8],
    right: &[u8],
    x: Places,
) -> Places
    requires { (h.mpeg1 ≡ MPEG1) × (h.mono ≡ MONO) × (LongFrame h) × (x.at + h.size ≤ length out.old) × (length out.old ≤ 16777216) }
    ensures { let ls = left.now in
        let rs = right.now in
        (result.at ≡ x.at + h.size)
        × ((fs : List Field) → write_fields fs (drop result.left ls) (drop result.right rs) out.new
        ≡ write_fields (fields_from (8 * x.at) h ++ fs) (drop x.left ls) (drop x.right rs) out.old) }
{
    let p = layer3::gain_places::<MPEG1, MONO>(h, x.at);
    let mut bit = p.first;
    let mut left_at = x.left;
    let mut right_at = x.right;
    for _ in 0..p.granules {
        left_at = put_field(out, bit, left, left_at);
        bit += p.next;
        if !MONO {
            right_at = put_field(out, bit, right, right_at);
            bit += p.next;
        }
    }
    Places {
        at: x.at + h.size,
        left: left_at,
        right: right_at,
    }
}

// Puts the next gains of both lists into the frame at `x`, and answers where the walk goes on.
fn put_frame(out: &mut [u8], h: Frame, left: &[u8], right: &[u8], x: Places) -> Places
    requires { (LongFrame h) × (x.at + h.size ≤ length out.old) × (length out.old ≤ 16777216) }
    ensures { let ls = left.now in
        let rs = right.now in
        (result.at ≡ x.at + h.size)
        × ((fs : List Field) → write_fields fs (drop result.left ls) (drop result.right rs) out.new
        ≡ write_fields (fields_from (8 * x.at) h ++ fs) (drop x.left ls) (drop x.right rs) out.old) }
{
    match (h.mpeg1, h.mono) {
        (true, true) => put_granules::<true, true>(out, h, left, right, x),
        (true, false) => put_granules::<true, false>(out, h, left, right, x),
        (false, true) => put_granules::<false, true>(out, h, left, right, x),
        (false, false) => put_granules::<false, false>(out, h, left, right, x),
    }
}

// One step of the walk over `audio`.
fn put_at(
    sizes: &[usize; 128],
    audio: &[u8],
    x: Places,
    left: &[u8],
    right: &[u8],
    out: &mut [u8],
) -> Places
    requires { (SizeTable sizes.now) × (x.at < length audio.now) × (length out.old ≡ length audio.now) × (length audio.now ≤ 16777216) }
    ensures { let s = audio.now in
        let ls = left.now in
        let rs = right.now in
        (x.at < result.at)
        × (write_fields (fields_of (walk (length s) s result.at)) (drop result.left ls) (drop result.right rs) out.new
        ≡ write_fields (fields_of (walk (length s) s x.at)) (drop x.left ls) (drop x.right rs) out.old) }
{
    let Some(h) = layer3::frame_at(sizes, audio, x.at) else {
        return Places {
            at: layer3::next_sync(audio, x.at + 1),
            ..x
        };
    };
    let y = put_frame(out, h, left, right, x);
    Places {
        at: layer3::pass_frame(audio, x.at, y.at),
        ..y
    }
}

// `write_gains`, by a table of frame lengths. No `for`: each turn goes on by a frame.
fn write_all(sizes: &[usize; 128], audio: &[u8], left: &[u8], right: &[u8], out: &mut [u8])
    requires { (SizeTable sizes.now) × (out.old ≡ audio.now) × (length audio.now ≤ 16777216) }
    ensures { out.new ≡ with_gains audio.now left.now right.now }
{
    let mut x = Places {
        at: layer3::walk_start(audio),
        left: 0,
        right: 0,
    };
    while x.at < audio.len() {
        x = put_at(sizes, audio, x, left, right, out);
    }
}

// The gains of two lists written into the fields of `audio` in `out`, which holds the same bytes: each field takes the next gain of its side, and a
// field for which none is left stays.
pub fn write_gains(audio: &[u8], left: &[u8], right: &[u8], out: &mut [u8])
    requires { (out.old ≡ audio.now) × (length audio.now ≤ 16777216) }
    ensures { out.new ≡ with_gains audio.now left.now right.now }
{
    let sizes = layer3::SIZES;
    write_all(&sizes, audio, left, right, out);
}

// How many gains there are on each side.
#[derive(Clone, Copy)]
pub struct Counts {
    pub left: usize,
    pub right: usize,
}

// Stores the gain in the field that begins at a bit at a place of a list, if the list reaches so far, and answers the next place.
fn get_field(audio: &[u8], bit: usize, gains: &mut [u8], i: usize) -> usize
    requires { (bit / 8 + 1 < length audio.now) × (i ≤ 16777218) }
    ensures { (result ≡ i + 1) × (gains.new ≡ set gains.old i (read_bits audio.now bit)) }
{
    if i < gains.len() {
        gains[i] = layer3::read_bits(audio, bit);
    }
    i + 1
}

// `get_frame` for one kind of frame.
fn get_granules<const MPEG1: bool, const MONO: bool>(
    audio: &[u8],
    h: Frame,
    left: &mut [u8],
    right: &mut [u8],
    x: Places,
) -> Places
    requires { (h.mpeg1 ≡ MPEG1) × (h.mono ≡ MONO) × (LongFrame h) × (x.at + h.size ≤ length audio.now) × (length audio.now ≤ 16777216) × (x.left ≤ x.at) × (x.right ≤ x.at) }
    ensures { let s = audio.now in
        let ls = read_left (fields_from (8 * x.at) h) s in
        let rs = read_right (fields_from (8 * x.at) h) s in
        (result.at ≡ x.at + h.size) × (result.left ≤ result.at) × (result.right ≤ result.at)
        × ((result.left ≡ x.left + length ls) × (left.new ≡ filled left.old x.left ls))
        × ((result.right ≡ x.right + length rs) × (right.new ≡ filled right.old x.right rs)) }
{
    let p = layer3::gain_places::<MPEG1, MONO>(h, x.at);
    let mut bit = p.first;
    let mut left_at = x.left;
    let mut right_at = x.right;
    for _ in 0..p.granules {
        left_at = get_field(audio, bit, left, left_at);
        bit += p.next;
        if !MONO {
            right_at = get_field(audio, bit, right, right_at);
            bit += p.next;
        }
    }
    Places {
        at: x.at + h.size,
        left: left_at,
        right: right_at,
    }
}

// Stores the gains of the frame at `x`, and answers where the walk goes on.
fn get_frame(audio: &[u8], h: Frame, left: &mut [u8], right: &mut [u8], x: Places) -> Places
    requires { (LongFrame h) × (x.at + h.size ≤ length audio.now) × (length audio.now ≤ 16777216) × (x.left ≤ x.at) × (x.right ≤ x.at) }
    ensures { let s = audio.now in
        let ls = read_left (fields_from (8 * x.at) h) s in
        let rs = read_right (fields_from (8 * x.at) h) s in
        (result.at ≡ x.at + h.size) × (result.left ≤ result.at) × (result.right ≤ result.at)
        × ((result.left ≡ x.left + length ls) × (left.new ≡ filled left.old x.left ls))
        × ((result.right ≡ x.right + length rs) × (right.new ≡ filled right.old x.right rs)) }
{
    match (h.mpeg1, h.mono) {
        (true, true) => get_granules::<true, true>(audio, h, left, right, x),
        (true, false) => get_granules::<true, false>(audio, h, left, right, x),
        (false, true) => get_granules::<false, true>(audio, h, left, right, x),
        (false, false) => get_granules::<false, false>(audio, h, left, right, x),
    }
}

// One step of the walk over `audio`.
fn get_at(
    sizes: &[usize; 128],
    audio: &[u8],
    x: Places,
    left: &mut [u8],
    right: &mut [u8],
) -> Places
    requires { (SizeTable sizes.now) × (x.at < length audio.now) × (length audio.now ≤ 16777216) × (x.left ≤ x.at) × (x.right ≤ x.at) }
    ensures { let s = audio.now in
        (x.at < result.at) × (result.left ≤ result.at) × (result.right ≤ result.at)
        × ((result.left + length (lefts_from s result.at) ≡ x.left + length (lefts_from s x.at))
        × (filled left.new result.left (lefts_from s result.at) ≡ filled left.old x.left (lefts_from s x.at)))
        × ((result.right + length (rights_from s result.at) ≡ x.right + length (rights_from s x.at))
        × (filled right.new result.right (rights_from s result.at) ≡ filled right.old x.right (rights_from s x.at))) }
{
    let Some(h) = layer3::frame_at(sizes, audio, x.at) else {
        return Places {
            at: layer3::next_sync(audio, x.at + 1),
            ..x
        };
    };
    let y = get_frame(audio, h, left, right, x);
    Places {
        at: layer3::pass_frame(audio, x.at, y.at),
        ..y
    }
}

// `read_gains`, by a table of frame lengths. No `for`: each turn goes on by a frame.
fn read_all(sizes: &[usize; 128], audio: &[u8], left: &mut [u8], right: &mut [u8]) -> Counts
    requires { (SizeTable sizes.now) × (length audio.now ≤ 16777216) }
    ensures { let s = audio.now in
        ((result.left ≡ length (left_gains s)) × (left.new ≡ filled left.old 0 (left_gains s)))
        × ((result.right ≡ length (right_gains s)) × (right.new ≡ filled right.old 0 (right_gains s))) }
{
    let mut x = Places {
        at: layer3::walk_start(audio),
        left: 0,
        right: 0,
    };
    while x.at < audio.len() {
        x = get_at(sizes, audio, x, left, right);
    }
    Counts {
        left: x.left,
        right: x.right,
    }
}

// The gains of `audio` stored at the front of two lists, as many of them as each has room for, and how many there are.
pub fn read_gains(audio: &[u8], left: &mut [u8], right: &mut [u8]) -> Counts
    requires { length audio.now ≤ 16777216 }
    ensures { let s = audio.now in
        ((result.left ≡ length (left_gains s)) × (left.new ≡ over (take (length left.old) (left_gains s)) left.old))
        × ((result.right ≡ length (right_gains s)) × (right.new ≡ over (take (length right.old) (right_gains s)) right.old)) }
{
    let sizes = layer3::SIZES;
    read_all(&sizes, audio, left, right)
}
