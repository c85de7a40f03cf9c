// Replays the published Rust's recorded answers for crates keys, items, area_edit, area_values and area_gains.
//
// A line is the call, the count of items, their area, what else the call takes, the reply, and, where that is 0, the answer.
#![tactic(auto)]

use items::Size;
use replies::Refusal;
use std::io;
use words::is_hex;

// The bytes of a word of hex digits, as many as fit. There is no heap, so the room is fixed.
#[derive(Clone, Copy)]
struct Bytes<const N: usize> {
    bytes: [u8; N],
    len: usize,
}

impl<const N: usize> Bytes<N> {
    fn as_slice(&self) -> &[u8] {
        &self.bytes[..self.len.min(N)]
    }
}

fn hex<const N: usize>(text: &[u8], at: usize) -> Bytes<N> {
    let mut bytes = [0u8; N];
    let len = words::hex_bytes(text, at, &mut bytes);
    Bytes { bytes, len }
}

fn area(text: &[u8], at: usize) -> Bytes<4096> {
    hex(text, at)
}

fn word(text: &[u8], at: usize) -> Bytes<512> {
    hex(text, at)
}

fn count(text: &[u8], at: usize) -> usize {
    words::unsigned(text, at) as usize
}

// Whether the word at this place is this number.
fn is_number(text: &[u8], at: usize, n: u64) -> bool {
    n == words::unsigned(text, at)
}

// Whether the word at this place is the number of this refusal.
fn is_refusal(text: &[u8], at: usize, r: Refusal) -> bool {
    is_number(text, at, u64::from(replies::number(r)))
}

// `key KEY 0|1`: whether the rule lets it pass.
fn key(text: &[u8], at: usize) -> bool {
    let good = words::unsigned(text, words::next_word(text, at)) == 1;
    keys::is_key(word(text, at).as_slice()) == good
}

// `which KEY PLACE`: which of the eight keys, 8 for none.
fn which(text: &[u8], at: usize) -> bool {
    let place = keys::which_key(word(text, at).as_slice()).unwrap_or(8);
    is_number(text, words::next_word(text, at), place as u64)
}

// `get COUNT AREA KEY REPLY VALUE REPEATED|none`.
fn get(text: &[u8], at: usize) -> bool {
    let area_at = words::next_word(text, at);
    let key_at = words::next_word(text, area_at);
    let reply_at = words::next_word(text, key_at);
    let value_at = words::next_word(text, reply_at);
    let area = area(text, area_at);
    let key = word(text, key_at);
    let mut status = 0;
    let mut there = false;
    let mut repeated = false;
    let value = items::get(
        area.as_slice(),
        count(text, at),
        key.as_slice(),
        &mut status,
        &mut there,
        &mut repeated,
    );
    let none = lists::starts_with(text, value_at, b"none");
    is_number(text, reply_at, u64::from(status))
        && if there {
            !none
                && is_number(text, words::next_word(text, value_at), u64::from(repeated))
                && is_hex(text, value_at, value)
        } else {
            !repeated && (status != 0 || none)
        }
}

// `get_undo_gain COUNT AREA REPLY STEPS|none`.
fn get_undo_gain(text: &[u8], at: usize) -> bool {
    let area_at = words::next_word(text, at);
    let reply_at = words::next_word(text, area_at);
    let steps_at = words::next_word(text, reply_at);
    let none = lists::starts_with(text, steps_at, b"none");
    match area_values::get_undo_gain(area(text, area_at).as_slice(), count(text, at)) {
        Ok(Some(steps)) => {
            is_number(text, reply_at, 0) && !none && steps == words::signed(text, steps_at)
        }
        Ok(None) => is_number(text, reply_at, 0) && none,
        Err(r) => is_refusal(text, reply_at, r),
    }
}

// `.. COUNT AREA .. REPLY COUNT AREA`: whether an edit of the area answers and writes what stands from the reply on.
fn edited<F: FnOnce(&[u8], usize, &mut [u8]) -> Result<Size, Refusal>>(
    text: &[u8],
    at: usize,
    reply_at: usize,
    edit: F,
) -> bool
    requires { F.IsAlwaysCallable edit }
{
    let area = area(text, words::next_word(text, at));
    let mut out = [0u8; 8192];
    match edit(area.as_slice(), count(text, at), &mut out) {
        Ok(size) => {
            let count_at = words::next_word(text, reply_at);
            is_number(text, reply_at, 0)
                && is_number(text, count_at, size.count as u64)
                && size.length <= out.len()
                && is_hex(text, words::next_word(text, count_at), &out[..size.length])
        }
        Err(r) => is_refusal(text, reply_at, r),
    }
}

// `set COUNT AREA KEY VALUE ..`.
fn set(text: &[u8], at: usize) -> bool {
    let key_at = words::next_word(text, words::next_word(text, at));
    let value_at = words::next_word(text, key_at);
    let key = word(text, key_at);
    let value = word(text, value_at);
    edited(
        text,
        at,
        words::next_word(text, value_at),
        |area, count, out| area_edit::set(area, count, key.as_slice(), value.as_slice(), out),
    )
}

// `remove COUNT AREA KEY ..`.
fn remove(text: &[u8], at: usize) -> bool {
    let key_at = words::next_word(text, words::next_word(text, at));
    let key = word(text, key_at);
    edited(
        text,
        at,
        words::next_word(text, key_at),
        |area, count, out| area_drop::remove(area, count, key.as_slice(), out),
    )
}

// `CALL COUNT AREA ..`: an edit that takes nothing more.
fn plain<F: FnOnce(&[u8], usize, &mut [u8]) -> Result<Size, Refusal>>(
    text: &[u8],
    at: usize,
    edit: F,
) -> bool
    requires { F.IsAlwaysCallable edit }
{
    edited(
        text,
        at,
        words::next_word(text, words::next_word(text, at)),
        edit,
    )
}

// `set_undo_gain COUNT AREA LEFT RIGHT W|N ..`.
fn set_undo_gain(text: &[u8], at: usize) -> bool {
    let left_at = words::next_word(text, words::next_word(text, at));
    let right_at = words::next_word(text, left_at);
    let flag_at = words::next_word(text, right_at);
    let left = words::signed(text, left_at);
    let right = words::signed(text, right_at);
    let wrap = lists::starts_with(text, flag_at, b"W");
    edited(
        text,
        at,
        words::next_word(text, flag_at),
        |area, count, out| area_values::set_undo_gain(area, count, left, right, wrap, out),
    )
}

// `set_minmax COUNT AREA LEAST GREATEST ..`.
fn set_minmax(text: &[u8], at: usize) -> bool {
    let least_at = words::next_word(text, words::next_word(text, at));
    let greatest_at = words::next_word(text, least_at);
    let least = (words::unsigned(text, least_at) % 256) as u8;
    let greatest = (words::unsigned(text, greatest_at) % 256) as u8;
    edited(
        text,
        at,
        words::next_word(text, greatest_at),
        |area, count, out| area_values::set_minmax(area, count, least, greatest, out),
    )
}

// `set_replaygain COUNT AREA TRACK_GAIN TRACK_PEAK ALBUM_GAIN ALBUM_PEAK ALGORITHM ..`.
fn set_replaygain(text: &[u8], at: usize) -> bool {
    let at0 = words::next_word(text, words::next_word(text, at));
    let at1 = words::next_word(text, at0);
    let at2 = words::next_word(text, at1);
    let at3 = words::next_word(text, at2);
    let at4 = words::next_word(text, at3);
    let track_gain = word(text, at0);
    let track_peak = word(text, at1);
    let album_gain = word(text, at2);
    let album_peak = word(text, at3);
    let algorithm = word(text, at4);
    edited(text, at, words::next_word(text, at4), |area, count, out| {
        area_gains::set_replaygain(
            area,
            count,
            track_gain.as_slice(),
            track_peak.as_slice(),
            album_gain.as_slice(),
            album_peak.as_slice(),
            algorithm.as_slice(),
            out,
        )
    })
}

// Whether the answer in the line at this place is the library's.
fn agrees(text: &[u8], at: usize) -> bool {
    let from = words::next_word(text, at);
    if lists::starts_with(text, at, b"key ") {
        key(text, from)
    } else if lists::starts_with(text, at, b"which ") {
        which(text, from)
    } else if lists::starts_with(text, at, b"get ") {
        get(text, from)
    } else if lists::starts_with(text, at, b"get_undo_gain ") {
        get_undo_gain(text, from)
    } else if lists::starts_with(text, at, b"set ") {
        set(text, from)
    } else if lists::starts_with(text, at, b"remove ") {
        remove(text, from)
    } else if lists::starts_with(text, at, b"remove_replaygain ") {
        plain(text, from, area_drop::remove_replaygain)
    } else if lists::starts_with(text, at, b"drop_undone ") {
        plain(text, from, area_drop::drop_undone)
    } else if lists::starts_with(text, at, b"take_mp3gain ") {
        plain(text, from, area_drop::take_mp3gain)
    } else if lists::starts_with(text, at, b"set_undo_gain ") {
        set_undo_gain(text, from)
    } else if lists::starts_with(text, at, b"set_minmax ") {
        set_minmax(text, from)
    } else if lists::starts_with(text, at, b"set_replaygain ") {
        set_replaygain(text, from)
    } else {
        false
    }
}

fn main(rt: HostRuntime) -> io::Result<()> {
    let mut text = vectors::buffer();
    let n = input::read_full(&rt, &mut text)?;
    vectors::report(&rt, b"items", vectors::replay_all(&text[..n], agrees))
}
