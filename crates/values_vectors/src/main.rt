// Replays the published Rust's recorded answers for crates values and decibels. The lines on slips, which the Rust does not have, and on
// exact decibels, where it has f64, are a second reading of document 01.
#![tactic(auto)]

use frame::{GainMode, GainSteps};
use std::io;

// Whether the word at this place is the flag, `1` or `0`.
fn is_flag(text: &[u8], at: usize, flag: bool) -> bool {
    lists::starts_with(text, at, if flag { b"1" } else { b"0" })
}

fn flag(text: &[u8], at: usize) -> bool {
    lists::starts_with(text, at, b"1")
}

// `undo TEXT LEFT RIGHT FLAG`.
fn undo(text: &[u8], at: usize) -> bool {
    let mut value = [0u8; 256];
    let n = words::hex_bytes(text, at, &mut value);
    let left = words::next_word(text, at);
    let right = words::next_word(text, left);
    let u = values::parse_undo_values(&value[..n]);
    let wrap = values::parse_undo_wrap(&value[..n]);
    u.left == words::signed(text, left)
        && u.right == words::signed(text, right)
        && is_flag(text, words::next_word(text, right), wrap)
}

// `accumulate TEXT LEFT RIGHT LEFT RIGHT`.
fn accumulate(text: &[u8], at: usize) -> bool {
    let mut value = [0u8; 256];
    let n = words::hex_bytes(text, at, &mut value);
    let left = words::next_word(text, at);
    let right = words::next_word(text, left);
    let l = words::signed(text, left);
    let r = words::signed(text, right);
    let u = values::accumulate_undo(&value[..n], GainSteps(l), GainSteps(r));
    let new_left = words::next_word(text, right);
    u.left == words::signed(text, new_left)
        && u.right == words::signed(text, words::next_word(text, new_left))
}

// `format LEFT RIGHT FLAG TEXT`.
fn format(text: &[u8], at: usize) -> bool {
    let right = words::next_word(text, at);
    let wrap = words::next_word(text, right);
    let t = values::format_undo_value(
        words::signed(text, at),
        words::signed(text, right),
        flag(text, wrap),
    );
    words::is_hex(text, words::next_word(text, wrap), t.as_slice())
}

// `minmax LEAST GREATEST TEXT`.
fn minmax(text: &[u8], at: usize) -> bool {
    let greatest = words::next_word(text, at);
    let a = (words::unsigned(text, at) % 256) as u8;
    let b = (words::unsigned(text, greatest) % 256) as u8;
    let t = values::format_minmax(a, b);
    words::is_hex(text, words::next_word(text, greatest), t.as_slice())
}

// `out KEY VALUE STEPS FLAG`.
fn out(text: &[u8], at: usize) -> bool {
    let mut key = [0u8; 64];
    let k = words::hex_bytes(text, at, &mut key);
    let value_at = words::next_word(text, at);
    let mut value = [0u8; 256];
    let n = words::hex_bytes(text, value_at, &mut value);
    let steps = words::next_word(text, value_at);
    let s = words::signed(text, steps);
    let leaves = values::range_wraps_out(&key[..k], &value[..n], GainSteps(s));
    is_flag(text, words::next_word(text, steps), leaves)
}

// `shift KEY VALUE STEPS TEXT`: the new text, or `none`.
fn shift(text: &[u8], at: usize) -> bool {
    let mut key = [0u8; 64];
    let k = words::hex_bytes(text, at, &mut key);
    let value_at = words::next_word(text, at);
    let mut value = [0u8; 256];
    let n = words::hex_bytes(text, value_at, &mut value);
    let steps = words::next_word(text, value_at);
    let s = words::signed(text, steps);
    let shifted = values::shift_stored_value(&key[..k], &value[..n], GainSteps(s));
    let wanted = words::next_word(text, steps);
    let none = lists::starts_with(text, wanted, b"none");
    match shifted {
        Some(t) => !none && words::is_hex(text, wanted, t.as_slice()),
        None => none,
    }
}

fn wraps(mode: GainMode) -> bool {
    match mode {
        GainMode::Saturating => false,
        GainMode::Wrapping => true,
    }
}

// `slip TEXT REPLY LEFT RIGHT FLAG`.
fn slip_line(text: &[u8], at: usize) -> bool {
    let mut value = [0u8; 256];
    let n = words::hex_bytes(text, at, &mut value);
    let reply = words::next_word(text, at);
    let wanted = words::unsigned(text, reply);
    let left = words::next_word(text, reply);
    let right = words::next_word(text, left);
    match slip::parse_slip(&value[..n]) {
        Ok(wish) => {
            let flag = words::next_word(text, right);
            let mode = match wish.mode {
                Some(m) => is_flag(text, flag, wraps(m)),
                None => lists::starts_with(text, flag, b"-"),
            };
            wanted == 0
                && wish.left.0 == words::signed(text, left)
                && wish.right.0 == words::signed(text, right)
                && mode
        }
        Err(r) => u64::from(replies::number(r)) == wanted,
    }
}

// `db STEPS FLAG MILLIONTHS REST`.
fn db(text: &[u8], at: usize) -> bool {
    let minus = words::next_word(text, at);
    let millionths = words::next_word(text, minus);
    let d = decibels::steps_to_db(GainSteps(words::signed(text, at)));
    d.1 == words::unsigned(text, millionths)
        && d.2 == words::unsigned(text, words::next_word(text, millionths))
        && is_flag(text, minus, d.0)
}

// Whether the answer in the line at this place is the library's.
fn agrees(text: &[u8], at: usize) -> bool {
    let from = words::next_word(text, at);
    if lists::starts_with(text, at, b"undo ") {
        undo(text, from)
    } else if lists::starts_with(text, at, b"accumulate ") {
        accumulate(text, from)
    } else if lists::starts_with(text, at, b"format ") {
        format(text, from)
    } else if lists::starts_with(text, at, b"minmax ") {
        minmax(text, from)
    } else if lists::starts_with(text, at, b"out ") {
        out(text, from)
    } else if lists::starts_with(text, at, b"shift ") {
        shift(text, from)
    } else if lists::starts_with(text, at, b"slip ") {
        slip_line(text, from)
    } else if lists::starts_with(text, at, b"db ") {
        db(text, from)
    } else {
        false
    }
}

fn main(rt: HostRuntime) -> io::Result<()> {
    let mut text = vectors::buffer();
    let n = input::read_full(&rt, &mut text)?;
    vectors::report(&rt, b"values", vectors::replay_all(&text[..n], agrees))
}
