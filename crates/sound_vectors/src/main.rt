// Replays the recorded answers of a second reading of request 5 for crate sound_read.
#![tactic(auto)]

use std::io;

// `gains FILE REPLY LEFT RIGHT`: the gains of either side.
fn gains(text: &[u8], at: usize) -> bool {
    let mut file = [0u8; 2048];
    let n = words::hex_bytes(text, at, &mut file);
    let reply = words::next_word(text, at);
    let left_at = words::next_word(text, reply);
    let right_at = words::next_word(text, left_at);
    let mut left = [0u8; 64];
    let mut right = [0u8; 64];
    match sound_read::read_gains(&file[..n], &mut left, &mut right) {
        Ok(counts) => {
            words::unsigned(text, reply) == 0
                && counts.left <= 64
                && counts.right <= 64
                && words::is_hex(text, left_at, &left[..counts.left])
                && words::is_hex(text, right_at, &right[..counts.right])
        }
        Err(r) => u64::from(replies::number(r)) == words::unsigned(text, reply),
    }
}

// Whether the answer in the line at this place is the library's.
fn agrees(text: &[u8], at: usize) -> bool {
    let from = words::next_word(text, at);
    lists::starts_with(text, at, b"gains ") && gains(text, from)
}

fn main(rt: HostRuntime) -> io::Result<()> {
    let mut text = vectors::buffer();
    let n = input::read_full(&rt, &mut text)?;
    vectors::report(&rt, b"sound", vectors::replay_all(&text[..n], agrees))
}
