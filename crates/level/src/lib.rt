// Level: every gain moved, and the file with the items that say so.
#![tactic(auto)]

ghost use Rattle.std.specs.Prelude.{◌≡◌, ◌≤◌, ◌+◌, ◌-◌, ◌*◌, true, length};
ghost use Rattle.lists.specs.Choice.{is_some};
ghost use Rattle.lists.specs.Write.{over};
ghost use Rattle.items.specs.Items.{parse, items_in};
ghost use Rattle.ape_write.specs.Answers.{written_bytes};
ghost use Rattle.calls.specs.Gate.{items_of};
ghost use Rattle.calls.specs.Calls.{peaks_kept, level_plan};
ghost use Rattle.gate.specs.Gate.{Passed};
ghost use Rattle.edit.specs.Finish.{tag_plan};
ghost use Rattle.gains.specs.Moves.{level_by};
ghost use Rattle.level_items.specs.Items.{ranged_items};
ghost use Rattle.level.specs.Answers.{level_answer, level_bytes, left_after, right_after, filed_answer};

use gains::Moving;
use gate::TagArea;
use replies::Refusal;
use values::{Range, UndoValues};

// How many bytes the items of a file that is fit for editing may have once level is done: each may grow by 32, and two more come.
pub const SCRATCH: usize = replies::AREA_LIMIT + 32 * replies::COUNT_LIMIT + 76;

// How long the new file is, and how many peak items of its tag were left as found.
#[derive(Clone, Copy)]
pub struct Leveled {
    pub length: usize,
    pub peaks: usize,
}

// The file with the items of a well-formed area, answered with a count of peaks: refusals 6 and 5.
fn filed(
    file: &[u8],
    area: &[u8],
    count: usize,
    peaks: usize,
    out: &mut [u8],
) -> Result<Leveled, Refusal>
    requires { (length file.now ≤ 16777216) × (is_some (parse count area.now) ≡ true) }
    ensures { let plan = tag_plan file.now (items_in count area.now) (length out.old) in
        (result ≡ filed_answer plan peaks) × (out.new ≡ over (written_bytes plan) out.old) }
{
    let length = edit::finish(file, area, count, out)?;
    Ok(Leveled { length, peaks })
}

// The file with the items that level leaves, which are made in `work` and `new`.
fn write_file_in(
    file: &[u8],
    place: TagArea,
    moves: Moving,
    undo: UndoValues,
    range: Range,
    work: &mut [u8],
    new: &mut [u8],
    out: &mut [u8],
) -> Result<Leveled, Refusal>
    requires { (Passed file.now place) × (length file.now ≤ 16777216) × (place.end - place.start + 32 * place.count + 76 ≤ length work.old)
        × (place.end - place.start + 32 * place.count + 76 ≤ length new.old) }
    ensures { let ts = ranged_items (level_by moves) undo range (items_of file.now) in
        let plan = tag_plan file.now ts (length out.old) in
        (result ≡ filed_answer plan (peaks_kept moves.left.0 moves.right.0 (items_of file.now))) × (out.new ≡ over (written_bytes plan) out.old) }
{
    let area = &file[place.start..place.end];
    let peaks = level_items::count_kept(area, place.count, moves.left, moves.right);
    let m = level_items::write_items(area, place.count, moves, undo, range, work, new);
    filed(file, &new[..m.length], m.count, peaks, out)
}

// The file with the items that level leaves.
pub fn write_file(
    file: &[u8],
    place: TagArea,
    moves: Moving,
    undo: UndoValues,
    range: Range,
    out: &mut [u8],
) -> Result<Leveled, Refusal>
    requires { (Passed file.now place) × (length file.now ≤ 16777216) }
    ensures { let ts = ranged_items (level_by moves) undo range (items_of file.now) in
        let plan = tag_plan file.now ts (length out.old) in
        (result ≡ filed_answer plan (peaks_kept moves.left.0 moves.right.0 (items_of file.now))) × (out.new ≡ over (written_bytes plan) out.old) }
{
    if place.end - place.start + 32 * place.count <= 4020 {
        let mut work = [0u8; edit::SMALL_ROOM];
        let mut new = [0u8; edit::SMALL_ROOM];
        return write_file_in(file, place, moves, undo, range, &mut work, &mut new, out);
    }
    let mut work = [0u8; SCRATCH];
    let mut new = [0u8; SCRATCH];
    write_file_in(file, place, moves, undo, range, &mut work, &mut new, out)
}

// Every gain moved, and the file with the items that say so: refusals 1, 2, 7, 8, 14, 9, 11, 6 and 5. The reply is decided before the first
// gain changes.
pub fn level(
    file: &[u8],
    left: &mut [u8],
    right: &mut [u8],
    moves: Moving,
    out: &mut [u8],
) -> Result<Leveled, Refusal>
    ensures { let plan = level_plan file.now left.entry.now right.old (level_by moves) (length out.old) in
        (result ≡ level_answer plan) × (out.new ≡ over (level_bytes plan) out.old)
        × (left.exit.now ≡ left_after plan left.entry.now) × (right.new ≡ right_after plan right.old) }
{
    let ready = checks::check_level(file, 0 < left.len(), moves)?;
    let range = gains::range_after(left, right, moves);
    let answer = write_file(file, ready.area, moves, ready.undo, range, out)?;
    gains::adjust_gains(left, moves.left, moves.mode);
    gains::adjust_gains(right, moves.right, moves.mode);
    Ok(answer)
}
