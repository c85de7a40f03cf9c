// Replays recorded lengths of new files, which the published Rust does not have: each is that of the file which the recorded call gives.
#![tactic(auto)]

use frame::{GainMode, GainSteps};
use gains::Moving;
use replies::Refusal;
use std::io;

// Whether an answer is that of the two words from this place: `0` and the length, or the number of a refusal and `0`.
fn answered(text: &[u8], at: usize, n: Result<usize, Refusal>) -> bool {
    let reply = words::unsigned(text, at);
    match n {
        Ok(m) => reply == 0 && words::unsigned(text, words::next_word(text, at)) == m as u64,
        Err(r) => reply == u64::from(replies::number(r)),
    }
}

// `set FILE KEY VALUE REPLY LENGTH`.
fn set(text: &[u8], at: usize) -> bool {
    let mut file = [0u8; 2048];
    let n = words::hex_bytes(text, at, &mut file);
    let key_at = words::next_word(text, at);
    let mut key = [0u8; 256];
    let k = words::hex_bytes(text, key_at, &mut key);
    let value_at = words::next_word(text, key_at);
    let mut value = [0u8; 256];
    let v = words::hex_bytes(text, value_at, &mut value);
    let a = lengths::set_length(&file[..n], &key[..k], &value[..v]);
    answered(text, words::next_word(text, value_at), a)
}

// `remove FILE KEY REPLY LENGTH`.
fn remove(text: &[u8], at: usize) -> bool {
    let mut file = [0u8; 2048];
    let n = words::hex_bytes(text, at, &mut file);
    let key_at = words::next_word(text, at);
    let mut key = [0u8; 256];
    let k = words::hex_bytes(text, key_at, &mut key);
    let a = lengths::remove_length(&file[..n], &key[..k]);
    answered(text, words::next_word(text, key_at), a)
}

// `undo FILE LEFT RIGHT REPLY LENGTH`.
fn undo(text: &[u8], at: usize) -> bool {
    let mut file = [0u8; 2048];
    let n = words::hex_bytes(text, at, &mut file);
    let left_at = words::next_word(text, at);
    let mut left = [0u8; 64];
    let l = words::hex_bytes(text, left_at, &mut left);
    let right_at = words::next_word(text, left_at);
    let mut right = [0u8; 64];
    let r = words::hex_bytes(text, right_at, &mut right);
    let a = lengths::undo_length(&file[..n], &left[..l], &right[..r]);
    answered(text, words::next_word(text, right_at), a)
}

// `level FILE LEFT RIGHT STEPS STEPS FLAG REPLY LENGTH`.
fn level(text: &[u8], at: usize) -> bool {
    let mut file = [0u8; 2048];
    let n = words::hex_bytes(text, at, &mut file);
    let left_at = words::next_word(text, at);
    let mut left = [0u8; 64];
    let l = words::hex_bytes(text, left_at, &mut left);
    let right_at = words::next_word(text, left_at);
    let mut right = [0u8; 64];
    let r = words::hex_bytes(text, right_at, &mut right);
    let steps_at = words::next_word(text, right_at);
    let right_steps_at = words::next_word(text, steps_at);
    let flag_at = words::next_word(text, right_steps_at);
    let moves = Moving {
        left: GainSteps(words::signed(text, steps_at)),
        right: GainSteps(words::signed(text, right_steps_at)),
        mode: GainMode::from_wrap(lists::starts_with(text, flag_at, b"W")),
    };
    let a = level_lengths::level_length(&file[..n], &left[..l], &right[..r], moves);
    answered(text, words::next_word(text, flag_at), a)
}

// `by_slip SLIP FILE LEFT RIGHT REPLY LENGTH`.
fn by_slip(text: &[u8], at: usize) -> bool {
    let mut slip = [0u8; 64];
    let m = words::hex_bytes(text, at, &mut slip);
    let file_at = words::next_word(text, at);
    let mut file = [0u8; 2048];
    let n = words::hex_bytes(text, file_at, &mut file);
    let left_at = words::next_word(text, file_at);
    let mut left = [0u8; 64];
    let l = words::hex_bytes(text, left_at, &mut left);
    let right_at = words::next_word(text, left_at);
    let mut right = [0u8; 64];
    let r = words::hex_bytes(text, right_at, &mut right);
    let a = level_lengths::slip_length(&slip[..m], &file[..n], &left[..l], &right[..r]);
    answered(text, words::next_word(text, right_at), a)
}

// Whether the answer in the line at this place is the library's.
fn agrees(text: &[u8], at: usize) -> bool {
    let from = words::next_word(text, at);
    if lists::starts_with(text, at, b"set ") {
        set(text, from)
    } else if lists::starts_with(text, at, b"remove ") {
        remove(text, from)
    } else if lists::starts_with(text, at, b"undo ") {
        undo(text, from)
    } else if lists::starts_with(text, at, b"level ") {
        level(text, from)
    } else if lists::starts_with(text, at, b"by_slip ") {
        by_slip(text, from)
    } else {
        false
    }
}

fn main(rt: HostRuntime) -> io::Result<()> {
    let mut text = vectors::buffer();
    let n = input::read_full(&rt, &mut text)?;
    vectors::report(&rt, b"lengths", vectors::replay_all(&text[..n], agrees))
}
