// Replays recorded answers for crate fixed_ranges: the published Rust's reading of a range, and a second reading of request 10.
#![tactic(auto)]

use fixed_ranges::Views;
use std::io;

// `fixed TEXT FIRST SECOND`, or `fixed TEXT none`.
fn fixed(text: &[u8], at: usize) -> bool {
    let mut value = [0u8; 256];
    let n = words::hex_bytes(text, at, &mut value);
    let first = words::next_word(text, at);
    let none = lists::starts_with(text, first, b"none");
    match fixed_ranges::fixed_range(&value[..n]) {
        Some(range) => {
            !none
                && u64::from(range.first) == words::unsigned(text, first)
                && u64::from(range.second) == words::unsigned(text, words::next_word(text, first))
        }
        None => none,
    }
}

// `views TEXT ANSWER`: `agree`, `differ`, `ours`, `fixed` or `neither`.
fn views(text: &[u8], at: usize) -> bool {
    let mut value = [0u8; 256];
    let n = words::hex_bytes(text, at, &mut value);
    let answer = words::next_word(text, at);
    let name: &[u8] = match fixed_ranges::compare_range_views(&value[..n]) {
        Views::Agree => b"agree",
        Views::Differ => b"differ",
        Views::OnlyOurs => b"ours",
        Views::OnlyFixed => b"fixed",
        Views::Neither => b"neither",
    };
    lists::starts_with(text, answer, name)
}

// Whether the answer in the line at this place is the library's.
fn agrees(text: &[u8], at: usize) -> bool {
    let from = words::next_word(text, at);
    if lists::starts_with(text, at, b"fixed ") {
        fixed(text, from)
    } else if lists::starts_with(text, at, b"views ") {
        views(text, from)
    } else {
        false
    }
}

fn main(rt: HostRuntime) -> io::Result<()> {
    let mut text = vectors::buffer();
    let n = input::read_full(&rt, &mut text)?;
    vectors::report(
        &rt,
        b"fixed_ranges",
        vectors::replay_all(&text[..n], agrees),
    )
}
