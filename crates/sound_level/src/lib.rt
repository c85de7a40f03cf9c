// Level and undo on the gains in the sound of an MP3.
#![tactic(auto)]

ghost use Rattle.std.specs.Prelude.{◌≡◌, true, ◌≤◌, length, take};
ghost use Rattle.lists.specs.Write.{over};
ghost use Rattle.ape_write.specs.Answers.{written_bytes};
ghost use Rattle.calls.specs.Gate.{items_of};
ghost use Rattle.calls.specs.Calls.{peaks_kept, adjusted};
ghost use Rattle.gains.specs.Moves.{level_by};
ghost use Rattle.layer3.specs.Walk.{left_gains, right_gains, with_gains};
ghost use Rattle.level.specs.Answers.{level_answer, level_bytes, filed_answer};
ghost use Rattle.sound_calls.specs.Sound.{level_sound_plan, level_mp3_plan, undo_mp3_plan};
ghost use Rattle.slip.specs.Slip.{is_step};
ghost use Rattle.sound_level.specs.Tagged.{tagged_plan};

use area_drop::Mp3gain;
use frame::{GainMode, GainSteps};
use gains::Moving;
use level::Leveled;
use replies::Refusal;
use slip::Wish;
use values::Range;

// The file with the items that level leaves where the gains will have this range: refusals 8, 14, 9, 11, 6 and 5.
fn level_tag(file: &[u8], range: Range, moves: Moving, out: &mut [u8]) -> Result<Leveled, Refusal>
    requires { (length file.now ≤ 16777216) × (is_step moves.left.0 ≡ true) × (is_step moves.right.0 ≡ true) }
    ensures { let plan = tagged_plan file.now (level_by moves) range (length out.old) in
        (result ≡ filed_answer plan (peaks_kept moves.left.0 moves.right.0 (items_of file.now)))
        × (out.new ≡ over (written_bytes plan) out.old) }
{
    let ready = checks::check_level(file, true, moves)?;
    level::write_file(file, ready.area, moves, ready.undo, range, out)
}

// Moves the gains in the first bytes of `out`, which are the audio of `file`.
fn move_front(file: &[u8], front: usize, out: &mut [u8], moves: Moving)
    requires { (length file.now ≤ 16777216) × (front ≤ length file.now) × (front ≤ length out.old) × (take front out.old ≡ take front file.now) }
    ensures { let s = take front file.now in
        out.new ≡ over (with_gains s (adjusted moves.mode moves.left.0 (left_gains s)) (adjusted moves.mode moves.right.0 (right_gains s))) out.old }
{
    sound_gains::move_gains(&file[..front], &mut out[..front], moves);
}

// Every gain in the sound of `file` moved, and the items that say so. The reply is decided before the first byte is written.
fn level_sound(file: &[u8], moves: Moving, out: &mut [u8]) -> Result<Leveled, Refusal>
    ensures { let plan = level_sound_plan file.now (level_by moves) (length out.old) in
        (result ≡ level_answer plan) × (out.new ≡ over (level_bytes plan) out.old) }
{
    if replies::FILE_LIMIT < file.len() {
        return Err(Refusal::FileTooLong);
    }
    if !slip::is_step(moves.left.0) {
        return Err(Refusal::StepOutOfRange);
    }
    if !slip::is_step(moves.right.0) {
        return Err(Refusal::StepOutOfRange);
    }
    let front = ape_replace::ape_tag_parts(file).front;
    let scan = sound_gains::scan_gains(&file[..front], moves);
    if !scan.frames {
        return Err(Refusal::NoFrame);
    }
    if scan.checksum {
        return Err(Refusal::HasChecksum);
    }
    let done = level_tag(file, scan.range, moves, out)?;
    move_front(file, front, out, moves);
    Ok(done)
}

// The same by a mode that is named, or resolved for the file: refusals 1, 2, 15, 16, 8, 14, 9, 11, 6 and 5.
pub fn level_mp3(file: &[u8], wish: Wish, out: &mut [u8]) -> Result<Leveled, Refusal>
    ensures { let plan = level_mp3_plan file.now wish (length out.old) in
        (result ≡ level_answer plan) × (out.new ≡ over (level_bytes plan) out.old) }
{
    let moves = Moving {
        left: wish.left,
        right: wish.right,
        mode: level_slip::resolve_mode(file, wish.mode),
    };
    level_sound(file, moves, out)
}

// Every gain in the sound of `file` moved back by the stored numbers, and the file without the eight keys: refusals 1, 15, 16, 8, 14, 10 and 5. The
// reply is decided before the first byte is written.
pub fn undo_mp3(file: &[u8], out: &mut [u8]) -> Result<Leveled, Refusal>
    ensures { let plan = undo_mp3_plan file.now (length out.old) in
        (result ≡ level_answer plan) × (out.new ≡ over (level_bytes plan) out.old) }
{
    if replies::FILE_LIMIT < file.len() {
        return Err(Refusal::FileTooLong);
    }
    let front = ape_replace::ape_tag_parts(file).front;
    let still = Moving {
        left: GainSteps(0),
        right: GainSteps(0),
        mode: GainMode::Saturating,
    };
    let scan = sound_gains::scan_gains(&file[..front], still);
    if !scan.frames {
        return Err(Refusal::NoFrame);
    }
    if scan.checksum {
        return Err(Refusal::HasChecksum);
    }
    let ready = checks::check_undo(file, true)?;
    let length = edit::drop_keys(file, ready.area, &Mp3gain, out)?;
    let undo = ready.undo;
    let back = Moving {
        left: GainSteps(undo.left),
        right: GainSteps(undo.right),
        mode: GainMode::from_wrap(undo.wrap),
    };
    move_front(file, front, out, back);
    Ok(Leveled { length, peaks: 0 })
}
