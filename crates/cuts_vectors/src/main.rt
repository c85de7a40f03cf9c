// Replays the published Rust's recorded answers on where a file is cut around its tag, and what stays when its tag is replaced.
#![tactic(auto)]

use ape_replace::Cut;
use std::io;

// Whether the three words at this place say where a file is cut; `none` stands for a part that is empty.
fn is_cut(text: &[u8], at: usize, cut: Cut) -> bool {
    let from = words::next_word(text, at);
    if cut.front as u64 != words::unsigned(text, at) {
        false
    } else if lists::starts_with(text, from, b"none") {
        cut.from == cut.to
    } else {
        cut.from as u64 == words::unsigned(text, from)
            && cut.to as u64 == words::unsigned(text, words::next_word(text, from))
    }
}

// `split FILE FRONT FROM TO FRONT FROM TO`: by cut_ape_tag, and by ape_tag_parts.
fn split(text: &[u8], at: usize) -> bool {
    let mut file = [0u8; 4096];
    let n = words::hex_bytes(text, at, &mut file);
    let file = &file[..n];
    let first = words::next_word(text, at);
    let from = words::next_word(text, first);
    let to = words::next_word(text, from);
    let second = words::next_word(text, to);
    is_cut(text, first, ape_replace::cut_ape_tag(file))
        && is_cut(text, second, ape_replace::ape_tag_parts(file))
}

// Whether the answer in the line at this place is the library's.
fn agrees(text: &[u8], at: usize) -> bool {
    lists::starts_with(text, at, b"split ") && split(text, words::next_word(text, at))
}

fn main(rt: HostRuntime) -> io::Result<()> {
    let mut text = vectors::buffer();
    let n = input::read_full(&rt, &mut text)?;
    vectors::report(&rt, b"cuts", vectors::replay_all(&text[..n], agrees))
}
