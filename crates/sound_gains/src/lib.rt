// The gains in the sound of audio, without a list of them: what a scan of them finds, and all of them moved.
#![tactic(auto)]

ghost use Rattle.std.specs.Prelude.{◌≡◌, ◌||◌, ◌++◌, ◌≤◌, ◌<◌, ◌+◌, ◌*◌, ◌/◌, min, max, length};
ghost use Rattle.frame.specs.Gain.{adjust};
ghost use Rattle.layer3.specs.Sizes.{SizeTable, LongFrame};
ghost use Rattle.layer3.specs.Bits.{read_bits, write_bits};
ghost use Rattle.layer3.specs.Fields.{fields_from, moved_by, moved_gains};
ghost use Rattle.layer3.specs.Walk.{walk, frames_in, fields_of, left_gains, right_gains, with_gains, any_frame, any_checksum};
ghost use Rattle.calls.specs.Calls.{adjusted, least, greatest};
ghost use Rattle.sound_gains.specs.Scan.{scanned, frames_found, checksum_found, least_found, greatest_found};

use frame::{GainMode, GainSteps};
use gains::Moving;
use layer3::Frame;
use values::Range;

// Moving the gain in the field that begins at a bit.
fn move_field(out: &mut [u8], bit: usize, steps: GainSteps, mode: GainMode)
    requires { bit / 8 + 1 < length out.old }
    ensures { out.new ≡ write_bits out.old bit (adjust mode steps.0 (read_bits out.old bit)) }
{
    let g = layer3::read_bits(out, bit);
    layer3::write_bits(out, bit, frame::adjust_gain_value(g, steps, mode));
}

// `move_frame` for one kind of frame.
fn move_granules<const MPEG1: bool, const MONO: bool>(
    out: &mut [u8],
    at: usize,
    h: Frame,
    moves: Moving,
)
    requires { (h.mpeg1 ≡ MPEG1) × (h.mono ≡ MONO) × (LongFrame h) × (at + h.size ≤ length out.old) × (length out.old ≤ 16777216) }
    ensures { out.new ≡ moved_by (adjust moves.mode moves.left.0) (adjust moves.mode moves.right.0) (fields_from (8 * at) h) out.old }
{
    let p = layer3::gain_places::<MPEG1, MONO>(h, at);
    let mut bit = p.first;
    for _ in 0..p.granules {
        move_field(out, bit, moves.left, moves.mode);
        bit += p.next;
        if !MONO {
            move_field(out, bit, moves.right, moves.mode);
            bit += p.next;
        }
    }
}

// Moving the gains of the frame that starts at a place.
fn move_frame(out: &mut [u8], at: usize, h: Frame, moves: Moving)
    requires { (LongFrame h) × (at + h.size ≤ length out.old) × (length out.old ≤ 16777216) }
    ensures { out.new ≡ moved_by (adjust moves.mode moves.left.0) (adjust moves.mode moves.right.0) (fields_from (8 * at) h) out.old }
{
    match (h.mpeg1, h.mono) {
        (true, true) => move_granules::<true, true>(out, at, h, moves),
        (true, false) => move_granules::<true, false>(out, at, h, moves),
        (false, true) => move_granules::<false, true>(out, at, h, moves),
        (false, false) => move_granules::<false, false>(out, at, h, moves),
    }
}

// One step of the walk over `audio`: moves the gains of a frame in `out`, and answers where the walk goes on.
fn move_at(sizes: &[usize; 128], audio: &[u8], at: usize, out: &mut [u8], moves: Moving) -> usize
    requires { (SizeTable sizes.now) × (at < length audio.now) × (length out.old ≡ length audio.now) × (length audio.now ≤ 16777216) }
    ensures { let s = audio.now in
        let f = adjust moves.mode moves.left.0 in
        let g = adjust moves.mode moves.right.0 in
        (at < result) × (length out.new ≡ length s)
        × (moved_by f g (fields_of (walk (length s) s result)) out.new ≡ moved_by f g (fields_of (walk (length s) s at)) out.old) }
{
    let Some(h) = layer3::frame_at(sizes, audio, at) else {
        return layer3::next_sync(audio, at + 1);
    };
    move_frame(out, at, h, moves);
    layer3::pass_frame(audio, at, at + h.size)
}

// Every gain of `audio` moved in `out`, by a table of frame lengths. No `for`: each turn goes on by a frame.
fn move_all(sizes: &[usize; 128], audio: &[u8], out: &mut [u8], moves: Moving)
    requires { (SizeTable sizes.now) × (out.old ≡ audio.now) × (length audio.now ≤ 16777216) }
    ensures { let s = audio.now in
        out.new ≡ with_gains s (adjusted moves.mode moves.left.0 (left_gains s)) (adjusted moves.mode moves.right.0 (right_gains s)) }
{
    let mut at = layer3::walk_start(audio);
    while at < audio.len() {
        at = move_at(sizes, audio, at, out, moves);
    }
}

// Every gain of `audio` moved in `out`, which holds the same bytes.
pub fn move_gains(audio: &[u8], out: &mut [u8], moves: Moving)
    requires { (out.old ≡ audio.now) × (length audio.now ≤ 16777216) }
    ensures { let s = audio.now in
        out.new ≡ with_gains s (adjusted moves.mode moves.left.0 (left_gains s)) (adjusted moves.mode moves.right.0 (right_gains s)) }
{
    let sizes = layer3::SIZES;
    move_all(&sizes, audio, out, moves);
}

// What a scan finds: whether there is a frame, whether one has a checksum, and the range that the gains will have.
#[derive(Clone, Copy)]
pub struct Scan {
    pub frames: bool,
    pub checksum: bool,
    pub range: Range,
}

// A scan under way: where it has come to, and what it has found.
#[derive(Clone, Copy)]
pub struct Progress {
    pub at: usize,
    pub found: Scan,
}

// A range that also holds the gain in a field as it will be.
fn widen_field(range: Range, audio: &[u8], bit: usize, steps: GainSteps, mode: GainMode) -> Range
    requires { bit / 8 + 1 < length audio.now }
    ensures { let g = adjust mode steps.0 (read_bits audio.now bit) in
        (result.least ≡ min range.least g) × (result.greatest ≡ max range.greatest g) }
{
    let g = frame::adjust_gain_value(layer3::read_bits(audio, bit), steps, mode);
    Range {
        least: range.least.min(g),
        greatest: range.greatest.max(g),
    }
}

// `widen_frame` for one kind of frame.
fn widen_granules<const MPEG1: bool, const MONO: bool>(
    range: Range,
    audio: &[u8],
    at: usize,
    h: Frame,
    moves: Moving,
) -> Range
    requires { (h.mpeg1 ≡ MPEG1) × (h.mono ≡ MONO) × (LongFrame h) × (at + h.size ≤ length audio.now) × (length audio.now ≤ 16777216) }
    ensures { let gs = moved_gains (adjust moves.mode moves.left.0) (adjust moves.mode moves.right.0) (fields_from (8 * at) h) audio.now in
        (result.least ≡ min range.least (least gs)) × (result.greatest ≡ max range.greatest (greatest gs)) }
{
    let p = layer3::gain_places::<MPEG1, MONO>(h, at);
    let mut bit = p.first;
    let mut wider = range;
    for _ in 0..p.granules {
        wider = widen_field(wider, audio, bit, moves.left, moves.mode);
        bit += p.next;
        if !MONO {
            wider = widen_field(wider, audio, bit, moves.right, moves.mode);
            bit += p.next;
        }
    }
    wider
}

// A range that also holds the gains of a frame as they will be.
fn widen_frame(range: Range, audio: &[u8], at: usize, h: Frame, moves: Moving) -> Range
    requires { (LongFrame h) × (at + h.size ≤ length audio.now) × (length audio.now ≤ 16777216) }
    ensures { let gs = moved_gains (adjust moves.mode moves.left.0) (adjust moves.mode moves.right.0) (fields_from (8 * at) h) audio.now in
        (result.least ≡ min range.least (least gs)) × (result.greatest ≡ max range.greatest (greatest gs)) }
{
    match (h.mpeg1, h.mono) {
        (true, true) => widen_granules::<true, true>(range, audio, at, h, moves),
        (true, false) => widen_granules::<true, false>(range, audio, at, h, moves),
        (false, true) => widen_granules::<false, true>(range, audio, at, h, moves),
        (false, false) => widen_granules::<false, false>(range, audio, at, h, moves),
    }
}

// One step of a scan.
fn scan_at(sizes: &[usize; 128], audio: &[u8], x: Progress, moves: Moving) -> Progress
    requires { (SizeTable sizes.now) × (x.at < length audio.now) × (length audio.now ≤ 16777216) }
    ensures { let s = audio.now in
        let f = adjust moves.mode moves.left.0 in
        let g = adjust moves.mode moves.right.0 in
        (x.at < result.at) × (frames_found s result ≡ frames_found s x) × (checksum_found s result ≡ checksum_found s x)
        × (least_found f g s result ≡ least_found f g s x) × (greatest_found f g s result ≡ greatest_found f g s x) }
{
    let Some(h) = layer3::frame_at(sizes, audio, x.at) else {
        return Progress {
            at: layer3::next_sync(audio, x.at + 1),
            ..x
        };
    };
    let checksum = x.found.checksum || h.checksum;
    let range = widen_frame(x.found.range, audio, x.at, h, moves);
    Progress {
        at: layer3::pass_frame(audio, x.at, x.at + h.size),
        found: Scan {
            frames: true,
            checksum,
            range,
        },
    }
}

// A scan of all of `audio`, by a table of frame lengths. No `for`: each turn goes on by a frame.
fn scan_all(sizes: &[usize; 128], audio: &[u8], moves: Moving) -> Scan
    requires { (SizeTable sizes.now) × (length audio.now ≤ 16777216) }
    ensures { result ≡ scanned moves.mode moves.left.0 moves.right.0 audio.now }
{
    let mut x = Progress {
        at: layer3::walk_start(audio),
        found: Scan {
            frames: false,
            checksum: false,
            range: Range {
                least: 255,
                greatest: 0,
            },
        },
    };
    while x.at < audio.len() {
        x = scan_at(sizes, audio, x, moves);
    }
    x.found
}

// Scans `audio` for frames, checksums, and the range of its gains as they will be. No gain changes.
pub fn scan_gains(audio: &[u8], moves: Moving) -> Scan
    requires { length audio.now ≤ 16777216 }
    ensures { result ≡ scanned moves.mode moves.left.0 moves.right.0 audio.now }
{
    let sizes = layer3::SIZES;
    scan_all(&sizes, audio, moves)
}
