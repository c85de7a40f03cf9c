// The gains in the sound of an MP3, read into two lists: read_gains.
#![tactic(auto)]

ghost use Rattle.std.specs.Prelude.{◌≡◌, ◌≤◌, length};
ghost use Rattle.sound_calls.specs.Sound.{read_gains_plan};
ghost use Rattle.sound_read.specs.Answers.{read_answer, left_read, right_read};

use frame::{GainMode, GainSteps};
use gains::Moving;
use replies::Refusal;
use sound_lists::Counts;

// The gains of an MP3 stored at the front of two lists, as many of them as each has room for, and how many there are. Refusals 1, 15 and 16.
pub fn read_gains(file: &[u8], left: &mut [u8], right: &mut [u8]) -> Result<Counts, Refusal>
    ensures { let plan = read_gains_plan file.now in
        (result ≡ read_answer plan) × (left.new ≡ left_read plan left.old) × (right.new ≡ right_read plan right.old) }
{
    if replies::FILE_LIMIT < file.len() {
        return Err(Refusal::FileTooLong);
    }
    let front = ape_replace::ape_tag_parts(file).front;
    let still = Moving {
        left: GainSteps(0),
        right: GainSteps(0),
        mode: GainMode::Saturating,
    };
    let scan = sound_gains::scan_gains(&file[..front], still);
    if !scan.frames {
        return Err(Refusal::NoFrame);
    }
    if scan.checksum {
        return Err(Refusal::HasChecksum);
    }
    Ok(sound_lists::read_gains(&file[..front], left, right))
}
