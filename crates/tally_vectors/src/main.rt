// Replays the published Rust's recorded answers on where a sound ends and on the counts of a level.
#![tactic(auto)]

use frame::{GainMode, GainSteps};
use std::io;

// `end FILE PLACE`: where the sound of the file ends.
fn end(text: &[u8], at: usize) -> bool {
    let mut file = [0u8; 1024];
    let n = words::hex_bytes(text, at, &mut file);
    frame::find_audio_end(&file[..n]) as u64 == words::unsigned(text, words::next_word(text, at))
}

// The gains from `first` on, each one more than the last, modulo 256.
fn gains_from(first: u64) -> [u8; 256] {
    let mut gains = [0u8; 256];
    for (gain, g) in gains.iter_mut().zip(first % 256..) {
        *gain = (g % 256) as u8;
    }
    gains
}

// `tally FLAG STEPS FIRST LAST LOW HIGH LOST LEAST GREATEST`: the counts of the gains from the first to the last, and their range afterwards.
fn tally(text: &[u8], at: usize) -> bool {
    let steps_at = words::next_word(text, at);
    let first_at = words::next_word(text, steps_at);
    let last_at = words::next_word(text, first_at);
    let low = words::next_word(text, last_at);
    let high = words::next_word(text, low);
    let lost = words::next_word(text, high);
    let least = words::next_word(text, lost);
    let greatest = words::next_word(text, least);
    let first = words::unsigned(text, first_at) % 256;
    let last = words::unsigned(text, last_at) % 256;
    if last < first {
        return false;
    }
    let n = (last - first + 1) as usize;
    let gains = gains_from(first);
    let mode = GainMode::from_wrap(lists::starts_with(text, at, b"W"));
    let t = tally::tally(&gains[..n], GainSteps(words::signed(text, steps_at)), mode);
    t.low as u64 == words::unsigned(text, low)
        && t.high as u64 == words::unsigned(text, high)
        && t.lost as u64 == words::unsigned(text, lost)
        && u64::from(t.least) == words::unsigned(text, least)
        && u64::from(t.greatest) == words::unsigned(text, greatest)
}

// Whether the answer in the line at this place is the library's.
fn agrees(text: &[u8], at: usize) -> bool {
    let from = words::next_word(text, at);
    if lists::starts_with(text, at, b"end ") {
        end(text, from)
    } else if lists::starts_with(text, at, b"tally ") {
        tally(text, from)
    } else {
        false
    }
}

fn main(rt: HostRuntime) -> io::Result<()> {
    let mut text = vectors::buffer();
    let n = input::read_full(&rt, &mut text)?;
    vectors::report(&rt, b"tally", vectors::replay_all(&text[..n], agrees))
}
