// The faces of crates slip and level_slip: a slip read, its mode resolved for a file, and level by a slip.
#![tactic(auto)]

ghost use Rattle.std.specs.Prelude.{◌≡◌, length};
ghost use Rattle.lists.specs.Write.{over};
ghost use Rattle.slip.specs.Slip.{read_slip};
ghost use Rattle.calls.specs.Calls.{slip_plan};
ghost use Rattle.level.specs.Answers.{level_answer, level_bytes, left_after, right_after};
ghost use Rattle.c_level.specs.LevelFace.{level_face};
ghost use Rattle.c_slip.specs.SlipFace.{gain_mode_number, mode_number, mode_with, slip_face, mode_face};

use frame::GainMode;
use replies::Refusal;

// The number of a mode in the C interface: 0 for N, 1 for W.
fn gain_mode_number(mode: GainMode) -> u32
    ensures { result ≡ gain_mode_number mode }
{
    match mode {
        GainMode::Saturating => 0,
        GainMode::Wrapping => 1,
    }
}

// The number of a slip's mode: 2 where it names none.
fn mode_number(mode: Option<GainMode>) -> u32
    ensures { result ≡ mode_number mode }
{
    match mode {
        Some(m) => gain_mode_number(m),
        None => 2,
    }
}

// The mode with a number: 0 for N, 1 for W, 2 for none named.
pub fn mode_with(mode: u32) -> Option<Option<GainMode>>
    ensures { result ≡ mode_with mode }
{
    match mode {
        0 => Some(Some(GainMode::Saturating)),
        1 => Some(Some(GainMode::Wrapping)),
        2 => Some(None),
        _ => None,
    }
}

// Reads a level slip: the steps of either side, and the mode: 0 for N, 1 for W, 2 where it names none. Refusals 13 and 2.
pub fn zib_parse_slip(text: &[u8], left: &mut i32, right: &mut i32, mode: &mut u32) -> u32
    ensures { let face = slip_face (read_slip text.now) left.old right.old mode.old in
        (result ≡ face.reply) × (left.new ≡ face.left) × (right.new ≡ face.right) × (mode.new ≡ face.mode) }
{
    match slip::parse_slip(text) {
        Ok(wish) => {
            *left = wish.left.0;
            *right = wish.right.0;
            *mode = mode_number(wish.mode);
            0
        }
        Err(r) => replies::number(r),
    }
}

// The mode of a slip for this file: 0 and 1 stay; 2 becomes the flag of the file's first undo item, or 1 where it has none. Refusal 13 for
// any other number.
pub fn zib_resolve_mode(file: &[u8], mode: u32, resolved: &mut u32) -> u32
    ensures { let face = mode_face (mode_with mode) file.now resolved.old in
        (result ≡ face.reply) × (resolved.new ≡ face.mode) }
{
    match mode_with(mode) {
        Some(named) => {
            *resolved = gain_mode_number(level_slip::resolve_mode(file, named));
            0
        }
        None => replies::number(Refusal::MalformedSlip),
    }
}

// Level as a slip asks: every gain moved, and the file with the items that say so written to the front of `out`, its length into `written` and
// the number of its peak items that were left as found into `peaks`. Refusals 13, 1, 2, 7, 8, 14, 9, 11, 6 and 5.
pub fn zib_level_by_slip(
    slip: &[u8],
    file: &[u8],
    left: &mut [u8],
    right: &mut [u8],
    out: &mut [u8],
    written: &mut usize,
    peaks: &mut usize,
) -> u32
    ensures { let plan = slip_plan slip.now file.now left.old right.old (length out.old) in
        let face = level_face (level_answer plan) written.old peaks.old in
        (result ≡ face.reply) × (written.new ≡ face.written) × (peaks.new ≡ face.peaks)
        × (out.new ≡ over (level_bytes plan) out.old) × (left.new ≡ left_after plan left.old)
        × (right.new ≡ right_after plan right.old) }
{
    c_level::put_answer(
        level_slip::level_by_slip(slip, file, left, right, out),
        written,
        peaks,
    )
}
