// Undo: every gain moved back, and the file without the items that said so.
#![tactic(auto)]

ghost use Rattle.std.specs.Prelude.{◌≡◌, length};
ghost use Rattle.lists.specs.Write.{over};
ghost use Rattle.calls.specs.Calls.{undo_plan};
ghost use Rattle.level.specs.Answers.{level_answer, level_bytes, left_after, right_after};

use area_drop::Mp3gain;
use frame::{GainMode, GainSteps};
use level::Leveled;
use replies::Refusal;

// Every gain moved back by the stored numbers, and the file without the eight keys: refusals 1, 7, 8, 14, 10 and 5. The reply is decided before the
// first gain changes.
pub fn undo(
    file: &[u8],
    left: &mut [u8],
    right: &mut [u8],
    out: &mut [u8],
) -> Result<Leveled, Refusal>
    ensures { let plan = undo_plan file.now left.old right.old (length out.old) in
        (result ≡ level_answer plan) × (out.new ≡ over (level_bytes plan) out.old)
        × (left.new ≡ left_after plan left.old) × (right.new ≡ right_after plan right.old) }
{
    let ready = checks::check_undo(file, 0 < left.len())?;
    let length = edit::drop_keys(file, ready.area, &Mp3gain, out)?;
    let undo = ready.undo;
    let mode = GainMode::from_wrap(undo.wrap);
    gains::adjust_gains(left, GainSteps(undo.left), mode);
    gains::adjust_gains(right, GainSteps(undo.right), mode);
    Ok(Leveled { length, peaks: 0 })
}
