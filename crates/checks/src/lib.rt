// The tests of level and undo that come before the new file is measured: what is lent, the gate, and the stored undo item.
#![tactic(auto)]

ghost use Rattle.std.specs.Prelude.{◌≡◌, true};
ghost use Rattle.lists.specs.Choice.{is_some};
ghost use Rattle.items.specs.Items.{parse, items_in};
ghost use Rattle.calls.specs.Calls.{agrees, is_undo_number};
ghost use Rattle.gate.specs.Gate.{area_place};
ghost use Rattle.gains.specs.Moves.{level_by};
ghost use Rattle.checks.specs.Stored.{undo_of};
ghost use Rattle.checks.specs.Checks.{numbers_plan, next_undo_plan, next_undo_answer, level_check, level_check_answer, undo_check, undo_check_answer};

use frame::{GainMode, GainSteps};
use gains::Moving;
use gate::TagArea;
use replies::Refusal;
use values::UndoValues;

// Where the items of the file stand, and the undo numbers that level stores.
#[derive(Clone, Copy)]
pub struct LevelReady {
    pub area: TagArea,
    pub undo: UndoValues,
}

// What an undo item says: the numbers, and the flag W.
#[derive(Clone, Copy)]
pub struct StoredUndo {
    pub left: i32,
    pub right: i32,
    pub wrap: bool,
}

// Where the items of the file stand, and what its undo item says.
#[derive(Clone, Copy)]
pub struct UndoReady {
    pub area: TagArea,
    pub undo: StoredUndo,
}

// Whether an undo text has the flag of the call.
fn agrees(text: &[u8], mode: GainMode) -> bool
    ensures { result ≡ agrees mode text.now }
{
    let wraps = values::parse_undo_wrap(text);
    match mode {
        GainMode::Saturating => !wraps,
        GainMode::Wrapping => wraps,
    }
}

// Whether a number lies in -32,768..32,767.
fn is_undo_number(n: i32) -> bool
    ensures { result ≡ is_undo_number n }
{
    integers::take_apart(n).by < 32768
}

// The undo numbers after these steps, from those of a text: refusal 11.
fn next_numbers(
    text: &[u8],
    left_steps: GainSteps,
    right_steps: GainSteps,
) -> Result<UndoValues, Refusal>
    ensures { result ≡ next_undo_answer (numbers_plan text.now left_steps.0 right_steps.0) }
{
    let u = values::accumulate_undo(text, left_steps, right_steps);
    if !is_undo_number(u.left) {
        return Err(Refusal::UndoOutOfRange);
    }
    if !is_undo_number(u.right) {
        return Err(Refusal::UndoOutOfRange);
    }
    Ok(u)
}

// The undo numbers that level stores in a well-formed area: refusals 14, 9 and 11. Nothing stored reads as the empty text.
fn next_undo(area: &[u8], count: usize, moves: Moving) -> Result<UndoValues, Refusal>
    requires { is_some (parse count area.now) ≡ true }
    ensures { result ≡ next_undo_answer (next_undo_plan (level_by moves) (items_in count area.now)) }
{
    let Some(f) = items::find(area, count, &keys::TAG_MP3GAIN_UNDO)? else {
        return next_numbers(b"", moves.left, moves.right);
    };
    if f.repeated {
        return Err(Refusal::SecondUndo);
    }
    let text = items::part(area, f);
    if !agrees(text, moves.mode) {
        return Err(Refusal::FlagDiffers);
    }
    next_numbers(text, moves.left, moves.right)
}

// Whether level would go on to the new file: refusals 1, 2, 7, 8, 14, 9 and 11. Of the gains it asks only whether there are left ones.
pub fn check_level(file: &[u8], gains: bool, moves: Moving) -> Result<LevelReady, Refusal>
    ensures { result ≡ level_check_answer (area_place file.now) (level_check file.now gains (level_by moves)) }
{
    if replies::FILE_LIMIT < file.len() {
        return Err(Refusal::FileTooLong);
    }
    if !slip::is_step(moves.left.0) {
        return Err(Refusal::StepOutOfRange);
    }
    if !slip::is_step(moves.right.0) {
        return Err(Refusal::StepOutOfRange);
    }
    if !gains {
        return Err(Refusal::NoLeftGains);
    }
    let area = gate::gate(file)?;
    let items = &file[area.start..area.end];
    let undo = next_undo(items, area.count, moves)?;
    Ok(LevelReady { area, undo })
}

// What the undo item of a well-formed area says: refusals 14 and 10.
pub fn stored_undo(area: &[u8], count: usize) -> Result<StoredUndo, Refusal>
    requires { is_some (parse count area.now) ≡ true }
    ensures { result ≡ undo_of (items_in count area.now) }
{
    let Some(f) = items::find(area, count, &keys::TAG_MP3GAIN_UNDO)? else {
        return Err(Refusal::NoUndo);
    };
    if f.repeated {
        return Err(Refusal::SecondUndo);
    }
    let text = items::part(area, f);
    let u = values::parse_undo_values(text);
    Ok(StoredUndo {
        left: u.left,
        right: u.right,
        wrap: values::parse_undo_wrap(text),
    })
}

// Whether undo would go on to the new file: refusals 1, 7, 8, 14 and 10. Of the gains it asks only whether there are left ones.
pub fn check_undo(file: &[u8], gains: bool) -> Result<UndoReady, Refusal>
    ensures { result ≡ undo_check_answer (area_place file.now) (undo_check file.now gains) }
{
    if replies::FILE_LIMIT < file.len() {
        return Err(Refusal::FileTooLong);
    }
    if !gains {
        return Err(Refusal::NoLeftGains);
    }
    let area = gate::gate(file)?;
    let undo = stored_undo(&file[area.start..area.end], area.count)?;
    Ok(UndoReady { area, undo })
}
