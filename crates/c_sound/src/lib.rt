// The faces of the calls on the gains in the sound of an MP3.
#![tactic(auto)]

ghost use Rattle.std.specs.Prelude.{◌≡◌, ◌≤◌, length};
ghost use Rattle.std.specs.Prelude.{Some};
ghost use Rattle.lists.specs.Write.{over};
ghost use Rattle.sound_calls.specs.Sound.{read_gains_plan, undo_mp3_plan};
ghost use Rattle.sound_read.specs.Answers.{read_answer, left_read, right_read};
ghost use Rattle.level.specs.Answers.{level_answer, level_bytes};
ghost use Rattle.c_level.specs.LevelFace.{level_face};
ghost use Rattle.c_slip.specs.SlipFace.{mode_with};
ghost use Rattle.c_sound.specs.SoundFace.{counts_face, numbered_plan};

use frame::GainSteps;
use replies::Refusal;
use slip::Wish;
use sound_lists::Counts;

// Hands out two counts.
fn hand_out(counts: Counts, left_count: &mut usize, right_count: &mut usize)
    ensures { (left_count.new ≡ counts.left) × (right_count.new ≡ counts.right) }
{
    *left_count = counts.left;
    *right_count = counts.right;
}

// The gains in the sound of an MP3, stored at the front of `left` and `right`, as many of them as each has room for, and how many there are on
// either side. Refusals 1, 15 and 16.
#[unsafe(no_mangle)]
pub extern "C" fn zib_read_gains(
    file: &[u8],
    left: &mut [u8],
    right: &mut [u8],
    left_count: &mut usize,
    right_count: &mut usize,
) -> u32
    ensures { let plan = read_gains_plan file.now in
        let face = counts_face (read_answer plan) left_count.old right_count.old in
        (result ≡ face.reply) × (left_count.new ≡ face.left) × (right_count.new ≡ face.right)
        × (left.new ≡ left_read plan left.old) × (right.new ≡ right_read plan right.old) }
{
    match sound_read::read_gains(file, left, right) {
        Ok(counts) => {
            hand_out(counts, left_count, right_count);
            0
        }
        Err(r) => replies::number(r),
    }
}

// Every gain in the sound of `file` moved by its side's steps, and the file with the items that say so written to the front of `out`, its length
// into `written` and the number of its peak items that were left as found into `peaks`. The mode is 0 for N, 1 for W, and 2 for the flag of the
// file's first undo item, or W where it has none. Refusals 13 for any other mode, then 1, 2, 15, 16, 8, 14, 9, 11, 6 and 5.
#[unsafe(no_mangle)]
pub extern "C" fn zib_level_mp3(
    file: &[u8],
    left_steps: i32,
    right_steps: i32,
    mode: u32,
    out: &mut [u8],
    written: &mut usize,
    peaks: &mut usize,
) -> u32
    ensures { let plan = numbered_plan (mode_with mode) file.now left_steps right_steps (length out.old) in
        let face = level_face (level_answer plan) written.old peaks.old in
        (result ≡ face.reply) × (written.new ≡ face.written) × (peaks.new ≡ face.peaks)
        × (out.new ≡ over (level_bytes plan) out.old) }
{
    let Some(named) = c_slip::mode_with(mode) else {
        return replies::number(Refusal::MalformedSlip);
    };
    let wish = Wish {
        left: GainSteps(left_steps),
        right: GainSteps(right_steps),
        mode: named,
    };
    c_level::put_answer(sound_level::level_mp3(file, wish, out), written, peaks)
}

// Every gain in the sound of `file` moved back by the stored undo, and the file without the eight keys written to the front of `out`, its length into
// `written` and 0 into `peaks`. Refusals 1, 15, 16, 8, 14, 10 and 5.
#[unsafe(no_mangle)]
pub extern "C" fn zib_undo_mp3(
    file: &[u8],
    out: &mut [u8],
    written: &mut usize,
    peaks: &mut usize,
) -> u32
    ensures { let plan = undo_mp3_plan file.now (length out.old) in
        let face = level_face (level_answer plan) written.old peaks.old in
        (result ≡ face.reply) × (written.new ≡ face.written) × (peaks.new ≡ face.peaks)
        × (out.new ≡ over (level_bytes plan) out.old) }
{
    c_level::put_answer(sound_level::undo_mp3(file, out), written, peaks)
}
