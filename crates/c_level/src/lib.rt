// The faces of crates level, undo and area_shift: level and undo on a file and its gains, and the shift of an area.
#![tactic(auto)]

ghost use Rattle.std.specs.Prelude.{◌≡◌, length};
ghost use Rattle.lists.specs.Write.{over};
ghost use Rattle.frame.specs.Gain.{mode_of};
ghost use Rattle.area_edit.specs.Edits.{answer, bytes};
ghost use Rattle.calls.specs.Calls.{Level, level_plan, undo_plan};
ghost use Rattle.area_shift.specs.Shift.{shift_plan};
ghost use Rattle.level.specs.Answers.{level_answer, level_bytes, left_after, right_after};
ghost use Rattle.c_area.specs.AreaFace.{edited_face};
ghost use Rattle.c_level.specs.LevelFace.{level_face};

use frame::{GainMode, GainSteps};
use gains::Moving;
use level::Leveled;
use replies::Refusal;

// Puts what was done into the lent numbers. The reply is 0, or the number of the refusal.
pub fn put_answer(answer: Result<Leveled, Refusal>, written: &mut usize, peaks: &mut usize) -> u32
    ensures { let face = level_face answer written.old peaks.old in
        (result ≡ face.reply) × (written.new ≡ face.written) × (peaks.new ≡ face.peaks) }
{
    match answer {
        Ok(done) => {
            *written = done.length;
            *peaks = done.peaks;
            0
        }
        Err(r) => replies::number(r),
    }
}

// Every gain moved by its side's steps, under W if `wrap`, and the file with the items that say so written to the front of `out`, its length into
// `written` and the number of its peak items that were left as found into `peaks`. Refusals 1, 2, 7, 8, 14, 9, 11, 6 and 5.
pub fn zib_level(
    file: &[u8],
    left: &mut [u8],
    right: &mut [u8],
    left_steps: i32,
    right_steps: i32,
    wrap: bool,
    out: &mut [u8],
    written: &mut usize,
    peaks: &mut usize,
) -> u32
    ensures { (let asked : Level = record { left = left_steps; right = right_steps; mode = mode_of wrap } in
        let plan = level_plan file.now left.old right.old asked (length out.old) in
        let face = level_face (level_answer plan) written.old peaks.old in
        (result ≡ face.reply) × (written.new ≡ face.written) × (peaks.new ≡ face.peaks)
        × (out.new ≡ over (level_bytes plan) out.old) × (left.new ≡ left_after plan left.old)
        × (right.new ≡ right_after plan right.old)) }
{
    let moves = Moving {
        left: GainSteps(left_steps),
        right: GainSteps(right_steps),
        mode: GainMode::from_wrap(wrap),
    };
    put_answer(level::level(file, left, right, moves, out), written, peaks)
}

// Every gain moved back by the stored undo, and the file without the eight keys written to the front of `out`, its length into `written` and 0
// into `peaks`. Refusals 1, 7, 8, 14, 10 and 5.
pub fn zib_undo(
    file: &[u8],
    left: &mut [u8],
    right: &mut [u8],
    out: &mut [u8],
    written: &mut usize,
    peaks: &mut usize,
) -> u32
    ensures { let plan = undo_plan file.now left.old right.old (length out.old) in
        let face = level_face (level_answer plan) written.old peaks.old in
        (result ≡ face.reply) × (written.new ≡ face.written) × (peaks.new ≡ face.peaks)
        × (out.new ≡ over (level_bytes plan) out.old) × (left.new ≡ left_after plan left.old)
        × (right.new ≡ right_after plan right.old) }
{
    put_answer(undo::undo(file, left, right, out), written, peaks)
}

// The area after so many steps, under W if `wrap`: written to the front of `out`, how many items it has into `items`, and its length into
// `written`. Refusals 12, 2 and 5.
pub fn zib_shift_stored_gain(
    area: &[u8],
    count: usize,
    steps: i32,
    wrap: bool,
    out: &mut [u8],
    items: &mut usize,
    written: &mut usize,
) -> u32
    ensures { let plan = shift_plan (mode_of wrap) steps count area.now (length out.old) in
        let face = edited_face (answer plan) items.old written.old in
        (result ≡ face.reply) × (items.new ≡ face.items) × (written.new ≡ face.written)
        × (out.new ≡ over (bytes plan) out.old) }
{
    let mode = GainMode::from_wrap(wrap);
    let shifted = area_shift::shift_stored_gain(area, count, GainSteps(steps), mode, out);
    c_area::put_edited(shifted, items, written)
}
