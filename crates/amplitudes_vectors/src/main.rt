// Replays recorded amplitudes, which the published Rust does not have: they are a second reading of request 14, over whole numbers.
#![tactic(auto)]

use frame::GainSteps;
use std::io;

// Whether a number has these bits. No amplitude is a NaN, which has no bits of its own.
fn has_bits(x: f64, bits: u64) -> bool {
    !x.is_nan() && x.to_bits() == bits
}

// `amplitudes LEFT RIGHT REPLY BITS BITS`: the steps of either side, and the bits of either amplitude in hex.
fn pair(text: &[u8], at: usize) -> bool {
    let right = words::next_word(text, at);
    let reply = words::next_word(text, right);
    let bits = words::next_word(text, reply);
    let left_steps = GainSteps(words::signed(text, at));
    let right_steps = GainSteps(words::signed(text, right));
    match amplitudes::to_amplitudes(left_steps, right_steps) {
        Ok(pair) => {
            words::unsigned(text, reply) == 0
                && has_bits(pair.left, words::hex64(text, bits))
                && has_bits(pair.right, words::hex64(text, words::next_word(text, bits)))
        }
        Err(r) => u64::from(replies::number(r)) == words::unsigned(text, reply),
    }
}

// Whether the answer in the line at this place is the library's.
fn agrees(text: &[u8], at: usize) -> bool {
    let from = words::next_word(text, at);
    lists::starts_with(text, at, b"amplitudes ") && pair(text, from)
}

fn main(rt: HostRuntime) -> io::Result<()> {
    let mut text = vectors::buffer();
    let n = input::read_full(&rt, &mut text)?;
    vectors::report(&rt, b"amplitudes", vectors::replay_all(&text[..n], agrees))
}
