// Replays recorded listings, each a line of a file and its text.
#![tactic(auto)]

use std::io;

// Whether the file of the line at this place lists as its text.
fn agrees(text: &[u8], at: usize) -> bool {
    let mut file = [0u8; 16385];
    let n = words::hex_bytes(text, at, &mut file);
    let mut listed = [0u8; 147473];
    let k = listing::list_tag(&file[..n], &mut listed);
    words::is_hex(text, words::next_word(text, at), &listed[..k])
}

fn main(rt: HostRuntime) -> io::Result<()> {
    let mut text = vectors::buffer();
    let n = input::read_full(&rt, &mut text)?;
    vectors::report(&rt, b"listing", vectors::replay_all(&text[..n], agrees))
}
