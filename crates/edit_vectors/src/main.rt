// Replays the recorded answers for crates edit, level, level_slip, undo and area_shift.
#![tactic(auto)]

use frame::{GainMode, GainSteps};
use gains::Moving;
use level::Leveled;
use replies::Refusal;
use std::io;

// Whether an answer is that of the two words from this place: `0` and the file, or the number of a refusal and `-`.
fn answered(text: &[u8], at: usize, w: Result<usize, Refusal>, out: &[u8]) -> bool {
    let reply = words::unsigned(text, at);
    match w {
        Ok(n) => {
            reply == 0
                && n <= out.len()
                && words::is_hex(text, words::next_word(text, at), &out[..n])
        }
        Err(r) => reply == u64::from(replies::number(r)),
    }
}

// `set FILE KEY VALUE REPLY FILE`.
fn set(text: &[u8], at: usize) -> bool {
    let mut file = [0u8; 2048];
    let n = words::hex_bytes(text, at, &mut file);
    let key_at = words::next_word(text, at);
    let mut key = [0u8; 256];
    let k = words::hex_bytes(text, key_at, &mut key);
    let value_at = words::next_word(text, key_at);
    let mut value = [0u8; 256];
    let v = words::hex_bytes(text, value_at, &mut value);
    let mut out = [0u8; 4096];
    let w = edit::set_ape_item(&file[..n], &key[..k], &value[..v], &mut out);
    answered(text, words::next_word(text, value_at), w, &out)
}

// `remove FILE KEY REPLY FILE`.
fn remove(text: &[u8], at: usize) -> bool {
    let mut file = [0u8; 2048];
    let n = words::hex_bytes(text, at, &mut file);
    let key_at = words::next_word(text, at);
    let mut key = [0u8; 256];
    let k = words::hex_bytes(text, key_at, &mut key);
    let mut out = [0u8; 4096];
    let w = edit::remove_ape_item(&file[..n], &key[..k], &mut out);
    answered(text, words::next_word(text, key_at), w, &out)
}

// Whether an answer is that of the four words from this place: the reply, the file, and the gains afterwards, also of a refused call.
fn left_behind(
    text: &[u8],
    at: usize,
    a: Result<Leveled, Refusal>,
    out: &[u8],
    left: &[u8],
    right: &[u8],
) -> bool {
    let left_after = words::next_word(text, words::next_word(text, at));
    answered(text, at, a.map(|done| done.length), out)
        && words::is_hex(text, left_after, left)
        && words::is_hex(text, words::next_word(text, left_after), right)
}

// `undo FILE LEFT RIGHT REPLY FILE LEFT RIGHT`.
fn undo(text: &[u8], at: usize) -> bool {
    let mut file = [0u8; 2048];
    let n = words::hex_bytes(text, at, &mut file);
    let left_at = words::next_word(text, at);
    let mut left = [0u8; 64];
    let l = words::hex_bytes(text, left_at, &mut left);
    let left = &mut left[..l];
    let right_at = words::next_word(text, left_at);
    let mut right = [0u8; 64];
    let r = words::hex_bytes(text, right_at, &mut right);
    let right = &mut right[..r];
    let mut out = [0u8; 4096];
    let a = undo::undo(&file[..n], left, right, &mut out);
    left_behind(text, words::next_word(text, right_at), a, &out, left, right)
}

// Whether an answer is that of the five words from this place: those of undo and the number of peak items, 0 where it is refused.
fn is_levelled(
    text: &[u8],
    at: usize,
    a: Result<Leveled, Refusal>,
    out: &[u8],
    left: &[u8],
    right: &[u8],
) -> bool {
    let left_after = words::next_word(text, words::next_word(text, at));
    let peaks_at = words::next_word(text, words::next_word(text, left_after));
    let peaks = a.map_or(0, |done| done.peaks);
    left_behind(text, at, a, out, left, right) && words::unsigned(text, peaks_at) == peaks as u64
}

// `level FILE LEFT RIGHT STEPS STEPS FLAG ROOM REPLY FILE LEFT RIGHT PEAKS`.
fn level(text: &[u8], at: usize) -> bool {
    let mut file = [0u8; 4096];
    let n = words::hex_bytes(text, at, &mut file);
    let left_at = words::next_word(text, at);
    let mut left = [0u8; 64];
    let l = words::hex_bytes(text, left_at, &mut left);
    let left = &mut left[..l];
    let right_at = words::next_word(text, left_at);
    let mut right = [0u8; 64];
    let r = words::hex_bytes(text, right_at, &mut right);
    let right = &mut right[..r];
    let steps_at = words::next_word(text, right_at);
    let right_steps_at = words::next_word(text, steps_at);
    let flag_at = words::next_word(text, right_steps_at);
    let room_at = words::next_word(text, flag_at);
    let room = words::unsigned(text, room_at) as usize;
    let mut out = [0u8; 4096];
    if out.len() < room {
        return false;
    }
    let out = &mut out[..room];
    let moves = Moving {
        left: GainSteps(words::signed(text, steps_at)),
        right: GainSteps(words::signed(text, right_steps_at)),
        mode: GainMode::from_wrap(lists::starts_with(text, flag_at, b"W")),
    };
    let a = level::level(&file[..n], left, right, moves, out);
    is_levelled(text, words::next_word(text, room_at), a, out, left, right)
}

// `by_slip SLIP FILE LEFT RIGHT REPLY FILE LEFT RIGHT PEAKS`.
fn by_slip(text: &[u8], at: usize) -> bool {
    let mut slip = [0u8; 64];
    let m = words::hex_bytes(text, at, &mut slip);
    let file_at = words::next_word(text, at);
    let mut file = [0u8; 4096];
    let n = words::hex_bytes(text, file_at, &mut file);
    let left_at = words::next_word(text, file_at);
    let mut left = [0u8; 64];
    let l = words::hex_bytes(text, left_at, &mut left);
    let left = &mut left[..l];
    let right_at = words::next_word(text, left_at);
    let mut right = [0u8; 64];
    let r = words::hex_bytes(text, right_at, &mut right);
    let right = &mut right[..r];
    let mut out = [0u8; 4096];
    let a = level_slip::level_by_slip(&slip[..m], &file[..n], left, right, &mut out);
    is_levelled(text, words::next_word(text, right_at), a, &out, left, right)
}

// `shift AREA COUNT STEPS FLAG ROOM REPLY AREA COUNT`; the last count is that of the items, 0 where it is refused.
fn shift(text: &[u8], at: usize) -> bool {
    let mut area = [0u8; 2048];
    let n = words::hex_bytes(text, at, &mut area);
    let count_at = words::next_word(text, at);
    let steps_at = words::next_word(text, count_at);
    let flag_at = words::next_word(text, steps_at);
    let room_at = words::next_word(text, flag_at);
    let room = words::unsigned(text, room_at) as usize;
    let mut out = [0u8; 4096];
    if out.len() < room {
        return false;
    }
    let out = &mut out[..room];
    let e = area_shift::shift_stored_gain(
        &area[..n],
        words::unsigned(text, count_at) as usize,
        GainSteps(words::signed(text, steps_at)),
        GainMode::from_wrap(lists::starts_with(text, flag_at, b"W")),
        out,
    );
    let reply_at = words::next_word(text, room_at);
    let items_at = words::next_word(text, words::next_word(text, reply_at));
    let items = e.map_or(0, |size| size.count);
    answered(text, reply_at, e.map(|size| size.length), out)
        && words::unsigned(text, items_at) == items as u64
}

// `gate FILE REPLY START END COUNT`, the last three 0 where it is refused.
fn gate(text: &[u8], at: usize) -> bool {
    let mut file = [0u8; 4096];
    let n = words::hex_bytes(text, at, &mut file);
    let reply_at = words::next_word(text, at);
    let reply = words::unsigned(text, reply_at);
    let start_at = words::next_word(text, reply_at);
    let end_at = words::next_word(text, start_at);
    let count_at = words::next_word(text, end_at);
    match gate::gate(&file[..n]) {
        Ok(area) => {
            reply == 0
                && words::unsigned(text, start_at) == area.start as u64
                && words::unsigned(text, end_at) == area.end as u64
                && words::unsigned(text, count_at) == area.count as u64
        }
        Err(r) => reply == u64::from(replies::number(r)),
    }
}

// Whether the answer in the line at this place is the library's.
fn agrees(text: &[u8], at: usize) -> bool {
    let from = words::next_word(text, at);
    if lists::starts_with(text, at, b"set ") {
        set(text, from)
    } else if lists::starts_with(text, at, b"remove ") {
        remove(text, from)
    } else if lists::starts_with(text, at, b"undo ") {
        undo(text, from)
    } else if lists::starts_with(text, at, b"level ") {
        level(text, from)
    } else if lists::starts_with(text, at, b"by_slip ") {
        by_slip(text, from)
    } else if lists::starts_with(text, at, b"shift ") {
        shift(text, from)
    } else if lists::starts_with(text, at, b"gate ") {
        gate(text, from)
    } else {
        false
    }
}

fn main(rt: HostRuntime) -> io::Result<()> {
    let mut text = vectors::buffer();
    let n = input::read_full(&rt, &mut text)?;
    vectors::report(&rt, b"edit", vectors::replay_all(&text[..n], agrees))
}
