// How long the file would be that level writes, by two steps and a mode or by a slip. Nothing is written.
#![tactic(auto)]

ghost use Rattle.std.specs.Prelude.{◌≡◌, ◌≤◌, ◌+◌, ◌-◌, ◌*◌, length};
ghost use Rattle.items.specs.Items.{area_bytes};
ghost use Rattle.calls.specs.Gate.{items_of};
ghost use Rattle.calls.specs.Lengths.{level_length, slip_length};
ghost use Rattle.gate.specs.Gate.{Passed};
ghost use Rattle.gains.specs.Moves.{level_by};
ghost use Rattle.level_items.specs.Items.{ranged_items};
ghost use Rattle.lengths.specs.Sizes.{last_length, length_answer};

use gains::Moving;
use gate::TagArea;
use replies::Refusal;
use values::{Range, UndoValues};

// How long the file would be with the items that level leaves, which are made in two rooms of N bytes. Every range has seven bytes, so the gains
// are not read. Each N is a function of its own, so that a call takes the stack of one of them.
fn items_length_in<const N: usize>(
    file: &[u8],
    place: TagArea,
    moves: Moving,
    undo: UndoValues,
) -> Result<usize, Refusal>
    requires { (Passed file.now place) × (length file.now ≤ 16777216) × (place.end - place.start + 32 * place.count + 76 ≤ N)
        × (N ≤ 65536) }
    ensures { let ts = ranged_items (level_by moves) undo (record { least = 0; greatest = 0 }) (items_of file.now) in
        result ≡ length_answer (last_length file.now (length (area_bytes ts)) (length ts)) }
{
    let mut work = [0u8; N];
    let mut new = [0u8; N];
    let range = Range {
        least: 0,
        greatest: 0,
    };
    let m = level_items::write_items(
        &file[place.start..place.end],
        place.count,
        moves,
        undo,
        range,
        &mut work,
        &mut new,
    );
    lengths::last_length(file, m.length, m.count)
}

// The same in room that is large enough.
fn items_length(
    file: &[u8],
    place: TagArea,
    moves: Moving,
    undo: UndoValues,
) -> Result<usize, Refusal>
    requires { (Passed file.now place) × (length file.now ≤ 16777216) }
    ensures { let ts = ranged_items (level_by moves) undo (record { least = 0; greatest = 0 }) (items_of file.now) in
        result ≡ length_answer (last_length file.now (length (area_bytes ts)) (length ts)) }
{
    if place.end - place.start + 32 * place.count <= 4020 {
        return items_length_in::<{ edit::SMALL_ROOM }>(file, place, moves, undo);
    }
    items_length_in::<{ level::SCRATCH }>(file, place, moves, undo)
}

// How long the file would be that level writes: refusals 1, 2, 7, 8, 14, 9, 11, 6 and 5. Of the gains it asks only whether there are left ones.
pub fn level_length(file: &[u8], left: &[u8], right: &[u8], moves: Moving) -> Result<usize, Refusal>
    ensures { result ≡ length_answer (level_length file.now left.entry.now right.now (level_by moves)) }
{
    let ready = checks::check_level(file, 0 < left.len(), moves)?;
    items_length(file, ready.area, moves, ready.undo)
}

// How long the file would be that level by a slip writes: refusals 13, 1, 2, 7, 8, 14, 9, 11, 6 and 5.
pub fn slip_length(slip: &[u8], file: &[u8], left: &[u8], right: &[u8]) -> Result<usize, Refusal>
    ensures { result ≡ length_answer (slip_length slip.now file.now left.now right.now) }
{
    let wish = slip::slip_form(slip).ok_or(Refusal::MalformedSlip)?;
    let mode = level_slip::resolve_mode(file, wish.mode);
    let moves = Moving {
        left: wish.left,
        right: wish.right,
        mode,
    };
    level_length(file, left, right, moves)
}
