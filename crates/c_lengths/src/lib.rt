// The faces of crates lengths and level_lengths: how long the file would be that a call writes.
#![tactic(auto)]

ghost use Rattle.std.specs.Prelude.{◌≡◌};
ghost use Rattle.frame.specs.Gain.{mode_of};
ghost use Rattle.calls.specs.Calls.{Level};
ghost use Rattle.calls.specs.Lengths.{set_length, remove_length, level_length, slip_length, undo_length};
ghost use Rattle.lengths.specs.Sizes.{length_answer};
ghost use Rattle.c_ape.specs.ApeFace.{written_face};

use frame::{GainMode, GainSteps};
use gains::Moving;

// The length of the file that zib_set_ape_item writes, into `bytes`. Refusals 1, 3, 4, 8, 6 and 5.
#[unsafe(no_mangle)]
pub extern "C" fn zib_set_length(file: &[u8], key: &[u8], value: &[u8], bytes: &mut usize) -> u32
    ensures { let plan = set_length file.now key.now value.now in
        let face = written_face (length_answer plan) bytes.old in
        (result ≡ face.reply) × (bytes.new ≡ face.written) }
{
    c_ape::put_written(lengths::set_length(file, key, value), bytes)
}

// The length of the file that zib_remove_ape_item writes, into `bytes`. Refusals 1, 3, 8, 6 and 5.
#[unsafe(no_mangle)]
pub extern "C" fn zib_remove_length(file: &[u8], key: &[u8], bytes: &mut usize) -> u32
    ensures { let plan = remove_length file.now key.now in
        let face = written_face (length_answer plan) bytes.old in
        (result ≡ face.reply) × (bytes.new ≡ face.written) }
{
    c_ape::put_written(lengths::remove_length(file, key), bytes)
}

// The length of the file that zib_level writes, into `bytes`. Refusals 1, 2, 7, 8, 14, 9, 11, 6 and 5.
#[unsafe(no_mangle)]
pub extern "C" fn zib_level_length(
    file: &[u8],
    left: &[u8],
    right: &[u8],
    left_steps: i32,
    right_steps: i32,
    wrap: bool,
    bytes: &mut usize,
) -> u32
    ensures { (let asked : Level = record { left = left_steps; right = right_steps; mode = mode_of wrap } in
        let plan = level_length file.now left.entry.now right.now asked in
        let face = written_face (length_answer plan) bytes.old in
        (result ≡ face.reply) × (bytes.new ≡ face.written)) }
{
    let moves = Moving {
        left: GainSteps(left_steps),
        right: GainSteps(right_steps),
        mode: GainMode::from_wrap(wrap),
    };
    c_ape::put_written(level_lengths::level_length(file, left, right, moves), bytes)
}

// The length of the file that zib_level_by_slip writes, into `bytes`. Refusals 13, 1, 2, 7, 8, 14, 9, 11, 6 and 5.
#[unsafe(no_mangle)]
pub extern "C" fn zib_level_by_slip_length(
    slip: &[u8],
    file: &[u8],
    left: &[u8],
    right: &[u8],
    bytes: &mut usize,
) -> u32
    ensures { let plan = slip_length slip.now file.now left.now right.now in
        let face = written_face (length_answer plan) bytes.old in
        (result ≡ face.reply) × (bytes.new ≡ face.written) }
{
    c_ape::put_written(level_lengths::slip_length(slip, file, left, right), bytes)
}

// The length of the file that zib_undo writes, into `bytes`. Refusals 1, 7, 8, 14, 10 and 5.
#[unsafe(no_mangle)]
pub extern "C" fn zib_undo_length(file: &[u8], left: &[u8], right: &[u8], bytes: &mut usize) -> u32
    ensures { let plan = undo_length file.now left.now right.now in
        let face = written_face (length_answer plan) bytes.old in
        (result ≡ face.reply) × (bytes.new ≡ face.written) }
{
    c_ape::put_written(lengths::undo_length(file, left, right), bytes)
}
