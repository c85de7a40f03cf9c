// The face of crate amplitudes.
#![tactic(auto)]

ghost use Rattle.std.specs.Prelude.{◌≡◌};
ghost use Rattle.amplitudes.specs.Amplitude.{amplitudes_plan};
ghost use Rattle.c_amplitudes.specs.AmplitudesFace.{amplitudes_face};

use frame::GainSteps;

// The amplitudes of the steps of either side. Refusal 2.
#[unsafe(no_mangle)]
pub extern "C" fn zib_amplitudes(
    left_steps: i32,
    right_steps: i32,
    left: &mut f64,
    right: &mut f64,
) -> u32
    ensures { let face = amplitudes_face (amplitudes_plan left_steps right_steps) left.old right.old in
        (result ≡ face.reply) × (left.new ≡ face.left) × (right.new ≡ face.right) }
{
    match amplitudes::to_amplitudes(GainSteps(left_steps), GainSteps(right_steps)) {
        Ok(pair) => {
            *left = pair.left;
            *right = pair.right;
            0
        }
        Err(r) => replies::number(r),
    }
}
