// Replays the published Rust's recorded answers for crate frame.
#![tactic(auto)]

use frame::{GainMode, GainSteps};
use std::io;

// `gains FLAG STEPS DIGEST`: the digest of what each of the 256 gains becomes.
fn gains(text: &[u8], at: usize) -> bool {
    let steps_at = words::next_word(text, at);
    let wrap = lists::starts_with(text, at, b"W");
    let steps = words::signed(text, steps_at);
    let mut h: u64 = 0xCBF2_9CE4_8422_2325;
    for g in 0..=255u8 {
        let moved = frame::adjust_gain_value(g, GainSteps(steps), GainMode::from_wrap(wrap));
        h = vectors::digest(h, moved);
    }
    h == words::hex64(text, words::next_word(text, steps_at))
}

// `gain FLAG GAIN STEPS GAIN`.
fn gain(text: &[u8], at: usize) -> bool {
    let gain_at = words::next_word(text, at);
    let steps_at = words::next_word(text, gain_at);
    let wrap = lists::starts_with(text, at, b"W");
    let current = (words::unsigned(text, gain_at) % 256) as u8;
    let steps = words::signed(text, steps_at);
    let moved = frame::adjust_gain_value(current, GainSteps(steps), GainMode::from_wrap(wrap));
    u64::from(moved) == words::unsigned(text, words::next_word(text, steps_at))
}

// `start FILE PLACE`: where the tag starts whose footer is the file's last 32 bytes, or `none`.
fn start(text: &[u8], at: usize) -> bool {
    let mut file = [0u8; 1024];
    let n = words::hex_bytes(text, at, &mut file);
    let place = words::next_word(text, at);
    if n < 32 {
        return false;
    }
    let none = lists::starts_with(text, place, b"none");
    match frame::ape_tag_start(&file[..n], n - 32) {
        Some(found) => !none && found as u64 == words::unsigned(text, place),
        None => none,
    }
}

// `id3v1 FILE BOOL`.
fn id3v1(text: &[u8], at: usize) -> bool {
    let mut file = [0u8; 1024];
    let n = words::hex_bytes(text, at, &mut file);
    frame::ends_with_id3v1(&file[..n]) == lists::starts_with(text, words::next_word(text, at), b"1")
}

// `u32 BYTES NUMBER`.
fn number(text: &[u8], at: usize) -> bool {
    let mut bytes = [0u8; 4];
    words::hex_bytes(text, at, &mut bytes);
    u64::from(frame::read_u32_le(&bytes, 0)) == words::unsigned(text, words::next_word(text, at))
}

// Whether the answer in the line at this place is the library's.
fn agrees(text: &[u8], at: usize) -> bool {
    let from = words::next_word(text, at);
    if lists::starts_with(text, at, b"gains ") {
        gains(text, from)
    } else if lists::starts_with(text, at, b"gain ") {
        gain(text, from)
    } else if lists::starts_with(text, at, b"start ") {
        start(text, from)
    } else if lists::starts_with(text, at, b"id3v1 ") {
        id3v1(text, from)
    } else if lists::starts_with(text, at, b"u32 ") {
        number(text, from)
    } else {
        false
    }
}

fn main(rt: HostRuntime) -> io::Result<()> {
    let mut text = vectors::buffer();
    let n = input::read_full(&rt, &mut text)?;
    vectors::report(&rt, b"frame", vectors::replay_all(&text[..n], agrees))
}
