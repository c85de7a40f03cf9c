// The face of crate tally.
#![tactic(auto)]

ghost use Rattle.std.specs.Prelude.{◌≡◌};
ghost use Rattle.frame.specs.Gain.{mode_of};
ghost use Rattle.tally.specs.Tally.{tally_of, saturated_of};

use frame::{GainMode, GainSteps};

// What a level by so many steps does to a list of gains, modulo 256 where `wrap` says so: how many it holds at 0 and at 255, how many no undo
// brings back, and the least and the greatest of them afterwards. Answers whether one was held. No gain changes.
#[unsafe(no_mangle)]
pub extern "C" fn zib_tally(
    gains: &[u8],
    steps: i32,
    wrap: bool,
    low: &mut usize,
    high: &mut usize,
    lost: &mut usize,
    least: &mut u32,
    greatest: &mut u32,
) -> bool
    ensures { let t = tally_of (mode_of wrap) steps gains.now in
        (result ≡ saturated_of t) × (low.new ≡ t.low) × (high.new ≡ t.high) × (lost.new ≡ t.lost)
        × (least.new ≡ t.least) × (greatest.new ≡ t.greatest) }
{
    let t = tally::tally(gains, GainSteps(steps), GainMode::from_wrap(wrap));
    *low = t.low;
    *high = t.high;
    *lost = t.lost;
    *least = u32::from(t.least);
    *greatest = u32::from(t.greatest);
    tally::saturated(t)
}
