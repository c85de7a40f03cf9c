// Level by a slip, and the mode of a slip that names none.
#![tactic(auto)]

ghost use Rattle.std.specs.Prelude.{◌≡◌, true, length, None};
ghost use Rattle.lists.specs.Choice.{is_some};
ghost use Rattle.lists.specs.Write.{over};
ghost use Rattle.items.specs.Items.{parse, items_in};
ghost use Rattle.calls.specs.Gate.{items_of};
ghost use Rattle.calls.specs.Calls.{resolved, slip_plan};
ghost use Rattle.level.specs.Answers.{level_answer, level_bytes, left_after, right_after};

use frame::GainMode;
use gains::Moving;
use level::Leveled;
use replies::Refusal;

// The mode of a slip that names none, for the items of a well-formed area: the flag of the first undo item, whatever follows it, and W where
// there is none.
fn unnamed_mode(area: &[u8], count: usize) -> GainMode
    requires { is_some (parse count area.now) ≡ true }
    ensures { result ≡ resolved None (items_in count area.now) }
{
    let Some(f) = items::find(area, count, &keys::TAG_MP3GAIN_UNDO).unwrap() else {
        return GainMode::Wrapping;
    };
    GainMode::from_wrap(values::parse_undo_wrap(items::part(area, f)))
}

// The same for a file. One that is not fit for editing has no items.
fn file_mode(file: &[u8]) -> GainMode
    ensures { result ≡ resolved None (items_of file.now) }
{
    match gate::gate(file) {
        Ok(area) => unnamed_mode(&file[area.start..area.end], area.count),
        Err(_) => GainMode::Wrapping,
    }
}

// The mode that a slip asks level for, in a file. It takes no notice of a second undo item: level refuses that under either mode.
pub fn resolve_mode(file: &[u8], mode: Option<GainMode>) -> GainMode
    ensures { result ≡ resolved mode (items_of file.now) }
{
    match mode {
        Some(named) => named,
        None => file_mode(file),
    }
}

// Level as a slip asks: refusals 13, 1, 2, 7, 8, 14, 9, 11, 6 and 5.
pub fn level_by_slip(
    slip: &[u8],
    file: &[u8],
    left: &mut [u8],
    right: &mut [u8],
    out: &mut [u8],
) -> Result<Leveled, Refusal>
    ensures { let plan = slip_plan slip.now file.now left.old right.old (length out.old) in
        (result ≡ level_answer plan) × (out.new ≡ over (level_bytes plan) out.old)
        × (left.new ≡ left_after plan left.old) × (right.new ≡ right_after plan right.old) }
{
    let wish = slip::slip_form(slip).ok_or(Refusal::MalformedSlip)?;
    let mode = resolve_mode(file, wish.mode);
    let moves = Moving {
        left: wish.left,
        right: wish.right,
        mode,
    };
    level::level(file, left, right, moves, out)
}
