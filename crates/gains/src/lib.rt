// Lists of gains: every gain moved, and the range that they will have.
#![tactic(auto)]

ghost use Rattle.std.specs.Prelude.{◌≡◌, ◌++◌, min, max};
ghost use Rattle.calls.specs.Calls.{adjusted, least, greatest, range_of};

use frame::{GainMode, GainSteps};
use values::Range;

// How many steps the gains of each side move, and how they meet the ends.
#[derive(Clone, Copy)]
pub struct Moving {
    pub left: GainSteps,
    pub right: GainSteps,
    pub mode: GainMode,
}

// Moves every gain of a list.
pub fn adjust_gains(gains: &mut [u8], steps: GainSteps, mode: GainMode)
    ensures { gains.new ≡ adjusted mode steps.0 gains.old }
{
    for gain in gains.iter_mut() {
        *gain = frame::adjust_gain_value(*gain, steps, mode);
    }
}

// A range that also holds the gains of a list as they will be.
fn widened(range: Range, gains: &[u8], steps: GainSteps, mode: GainMode) -> Range
    ensures { let moved = adjusted mode steps.0 gains.now in
        (result.least ≡ min range.least (least moved)) × (result.greatest ≡ max range.greatest (greatest moved)) }
{
    let mut wider = range;
    for &gain in gains {
        let moved = frame::adjust_gain_value(gain, steps, mode);
        wider.least = wider.least.min(moved);
        wider.greatest = wider.greatest.max(moved);
    }
    wider
}

// The range of all gains as they will be. No gain changes.
pub fn range_after(left: &[u8], right: &[u8], moves: Moving) -> Range
    ensures { result ≡ range_of (adjusted moves.mode moves.left.0 left.now ++ adjusted moves.mode moves.right.0 right.now) }
{
    let none = Range {
        least: 255,
        greatest: 0,
    };
    widened(
        widened(none, left, moves.left, moves.mode),
        right,
        moves.right,
        moves.mode,
    )
}
