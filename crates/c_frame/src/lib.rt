// The faces of crate frame.
#![tactic(auto)]

ghost use Rattle.std.specs.Prelude.{◌≡◌};
ghost use Rattle.frame.specs.Tail.{ends_with_id3v1};
ghost use Rattle.frame.specs.Gain.{mode_of, adjust};
ghost use Rattle.c_frame.specs.FrameFace.{read, start_face, end_face};

use frame::{GainMode, GainSteps};
use replies::Refusal;

// The number of four bytes, the least first, that stands in `bytes` from `at`: answers whether four bytes stand there.
#[unsafe(no_mangle)]
pub extern "C" fn zib_read_u32_le(bytes: &[u8], at: usize, value: &mut u32) -> bool
    ensures { (result ≡ (read bytes.now at value.old).there)
        × (value.new ≡ (read bytes.now at value.old).value) }
{
    if bytes.len() < 4 || bytes.len() - 4 < at {
        return false;
    }
    *value = frame::read_u32_le(bytes, at);
    true
}

// Whether the file ends in a 128-byte ID3v1 block.
#[unsafe(no_mangle)]
pub extern "C" fn zib_ends_with_id3v1(file: &[u8]) -> bool
    ensures { result ≡ ends_with_id3v1 file.now }
{
    frame::ends_with_id3v1(file)
}

// Where the tag whose footer stands in `file` at `footer` starts: `there` is 1 and `start` its place, or both are 0. Refusal 1.
#[unsafe(no_mangle)]
pub extern "C" fn zib_ape_tag_start(
    file: &[u8],
    footer: usize,
    there: &mut u32,
    start: &mut usize,
) -> u32
    ensures { let face = start_face file.now footer there.old start.old in
        (result ≡ face.reply) × (there.new ≡ face.there) × (start.new ≡ face.start) }
{
    if replies::FILE_LIMIT < file.len() {
        return replies::number(Refusal::FileTooLong);
    }
    let place = frame::ape_tag_start(file, footer);
    *there = u32::from(place.is_some());
    *start = place.unwrap_or(0);
    0
}

// Where the sound of a file ends: before its ID3v1 block, if it has one, and before the tag that stands there. Refusal 1.
#[unsafe(no_mangle)]
pub extern "C" fn zib_find_audio_end(file: &[u8], end: &mut usize) -> u32
    ensures { let face = end_face file.now end.old in (result ≡ face.reply) × (end.new ≡ face.end) }
{
    if replies::FILE_LIMIT < file.len() {
        return replies::number(Refusal::FileTooLong);
    }
    *end = frame::find_audio_end(file);
    0
}

// What a gain is after so many steps, modulo 256 where `wrap` says so, else within 0..255.
#[unsafe(no_mangle)]
pub extern "C" fn zib_adjust_gain_value(current: u8, steps: i32, wrap: bool) -> u8
    ensures { result ≡ adjust (mode_of wrap) steps current }
{
    frame::adjust_gain_value(current, GainSteps(steps), GainMode::from_wrap(wrap))
}
