// Amplitudes for a mixer: 2 to the power of a quarter of the steps, as f64.
#![tactic(auto)]

ghost use Rattle.std.specs.Prelude.{◌≡◌, true, ◌*◌, ◌<◌};
ghost use Rattle.std.specs.Float.{binary64};
ghost use Rattle.std.specs.Float.Ieee.{mul, of_bits};
ghost use Rattle.slip.specs.Slip.{is_step};
ghost use Rattle.amplitudes.specs.Amplitude as Amp;

use frame::GainSteps;
use replies::Refusal;

// Two amplitudes, left and right.
#[derive(Clone, Copy)]
pub struct Amplitudes {
    pub left: f64,
    pub right: f64,
}

// The f64 nearest to the fourth roots of 1, 2, 4 and 8.
const CONSTANTS: [f64; 4] = [
    1.0,
    1.189207115002721,
    1.4142135623730951,
    1.681792830507429,
];

// A constant times a power of two, by the field that the power's exponent has.
fn scaled(k: usize, field: u64) -> f64
    requires { (k < 4) × (field < 2047) }
    ensures { result ≡ mul binary64 (Amp.constant k) (of_bits binary64 (field * 4503599627370496)) }
{
    CONSTANTS[k] * f64::from_bits(field * 4503599627370496)
}

// 2 to the power of steps / 4. The division rounds down.
fn amplitude(steps: GainSteps) -> f64
    requires { is_step steps.0 ≡ true }
    ensures { result ≡ Amp.amplitude steps.0 }
{
    let k = steps.0.rem_euclid(4) as usize;
    let field = (1023 + (steps.0 >> 2)) as u64;
    scaled(k, field)
}

// The amplitudes of two step counts. Refusal 2.
#[tactic(auto, unfolding(crate::specs::Amplitude::amplitudes_plan))]
pub fn to_amplitudes(left: GainSteps, right: GainSteps) -> Result<Amplitudes, Refusal>
    ensures { result ≡ Amp.answer (Amp.amplitudes_plan left.0 right.0) }
{
    if !slip::is_step(left.0) || !slip::is_step(right.0) {
        return Err(Refusal::StepOutOfRange);
    }
    Ok(Amplitudes {
        left: amplitude(left),
        right: amplitude(right),
    })
}
