// How many gains of a list a level holds at 0 or 255 or moves where no undo brings them back, and the range that it leaves.
#![tactic(auto)]

ghost use Rattle.std.specs.Prelude.{◌≡◌, cond, ◌≤◌, ◌+◌, length, take, drop};
ghost use Rattle.integers.specs.Apart.{whole_of};
ghost use Rattle.tally.specs.Tally.{count, within, is_low, is_high, is_lost, tally_of, saturated_of};

use frame::{GainMode, GainSteps};
use gains::Moving;
use integers::Apart;
use values::Range;

// What a level does to a list of gains: how many it holds at 0 and at 255, how many no undo brings back, and the least and the greatest of
// them afterwards, 255 and 0 for none.
#[derive(Clone, Copy)]
pub struct Tallied {
    pub low: usize,
    pub high: usize,
    pub lost: usize,
    pub least: u8,
    pub greatest: u8,
}

// 1 for a gain above `over` and not above `most`, else 0.
fn one_within(gain: u8, over: u8, most: u8) -> u8
    ensures { (result ≡ cond (within over most gain) 1 0) × (result ≤ 1) }
{
    u8::from(over < gain && gain <= most)
}

// How many of the 240 gains from `at` are above `over` and not above `most`. It is counted in a byte, so that sixteen gains are taken at once.
fn count_block(gains: &[u8], at: usize, over: u8, most: u8) -> u8
    requires { at + 240 ≤ length gains.now }
    ensures { result ≡ count (within over most) (take 240 (drop at gains.now)) }
{
    let mut n = 0;
    for k in 0..240 {
        n += one_within(gains[at + k], over, most);
    }
    n
}

// How many gains are above `over` and not above `most`.
fn count_within(gains: &[u8], over: u8, most: u8) -> usize
    ensures { result ≡ count (within over most) gains.now }
{
    let blocks = gains.len() / 240;
    let mut n = 0;
    for i in 0..blocks {
        n += usize::from(count_block(gains, i * 240, over, most));
    }
    for at in blocks * 240..gains.len() {
        n += usize::from(one_within(gains[at], over, most));
    }
    n
}

// The counts under N, beside a range. Down by n + 1 the gains of 1..n are held at 0, and that of n + 1 lands there; up by n those above
// 255 - n are held at 255.
fn held(gains: &[u8], steps: Apart, range: Range) -> Tallied
    ensures { let z = whole_of steps in let gs = gains.now in
        (result.low ≡ count (is_low z) gs) × (result.high ≡ count (is_high z) gs) × (result.lost ≡ count (is_lost z) gs)
        × (result.least ≡ range.least) × (result.greatest ≡ range.greatest) }
{
    let Range { least, greatest } = range;
    if steps.down {
        let down = frame::within_byte(steps.by, 254);
        Tallied {
            low: count_within(gains, 0, down),
            high: 0,
            lost: count_within(gains, 0, down + 1),
            least,
            greatest,
        }
    } else {
        let up = frame::within_byte(steps.by, 255);
        let high = count_within(gains, 255 - up, 255);
        Tallied {
            low: 0,
            high,
            lost: high,
            least,
            greatest,
        }
    }
}

// What a level by so many steps does to a list of gains. No gain changes.
pub fn tally(gains: &[u8], steps: GainSteps, mode: GainMode) -> Tallied
    ensures { result ≡ tally_of mode steps.0 gains.now }
{
    let moves = Moving {
        left: steps,
        right: GainSteps(0),
        mode,
    };
    let range = gains::range_after(gains, &[], moves);
    match mode {
        GainMode::Saturating => held(gains, integers::take_apart(steps.0), range),
        GainMode::Wrapping => Tallied {
            low: 0,
            high: 0,
            lost: 0,
            least: range.least,
            greatest: range.greatest,
        },
    }
}

// Whether a gain was held at 0 or at 255.
pub fn saturated(t: Tallied) -> bool
    ensures { result ≡ saturated_of t }
{
    0 < t.low || 0 < t.high
}
