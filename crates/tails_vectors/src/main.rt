// Replays recorded answers for crates tail_read and tail_write: the published Rust's of reading, and a second reading of requests 1 and 9 of the rest.
#![tactic(auto)]

use std::io;
use tail_write::Rewritten;

// `needed PROBE TOTAL NUMBER`: how many final bytes reading needs, or `none` where it is refused.
fn needed(text: &[u8], at: usize) -> bool {
    let mut probe = [0u8; 160];
    let n = words::hex_bytes(text, at, &mut probe);
    let total_at = words::next_word(text, at);
    let number = words::next_word(text, total_at);
    let none = lists::starts_with(text, number, b"none");
    match tail_read::bytes_needed(&probe[..n], words::unsigned(text, total_at) as usize) {
        Ok(k) => !none && k as u64 == words::unsigned(text, number),
        Err(_) => none,
    }
}

// `end FILE COUNT AREA`: how many items are read in two stages, and their area, or `none -`.
fn end(text: &[u8], at: usize) -> bool {
    let mut file = [0u8; 2048];
    let n = words::hex_bytes(text, at, &mut file);
    let count_at = words::next_word(text, at);
    let area_at = words::next_word(text, count_at);
    let none = lists::starts_with(text, count_at, b"none");
    let mut area = [0u8; 8192];
    match tail_read::read_from_end(&file[..n], &mut area) {
        Ok(Some(size)) => {
            !none
                && size.count as u64 == words::unsigned(text, count_at)
                && words::is_front(text, area_at, &area, size.length)
        }
        Ok(None) => none,
        Err(_) => false,
    }
}

// Whether the words from this place on are the first place that is written, and the file of this length that is found.
fn is_found(text: &[u8], at: usize, end: usize, buf: &[u8], length: usize) -> bool {
    end as u64 == words::unsigned(text, at)
        && words::is_front(text, words::next_word(text, at), buf, length)
}

// `rewrite FILE COUNT AREA END FILE`.
fn rewrite(text: &[u8], at: usize) -> bool {
    let mut buf = [0u8; 4096];
    let n = words::hex_bytes(text, at, &mut buf);
    let count_at = words::next_word(text, at);
    let area_at = words::next_word(text, count_at);
    let mut area = [0u8; 2048];
    let m = words::hex_bytes(text, area_at, &mut area);
    let count = words::unsigned(text, count_at) as usize;
    match tail_write::rewrite_ape_tail(&mut buf, n, &area[..m], count) {
        Ok(Rewritten::Done { end, length }) => {
            is_found(text, words::next_word(text, area_at), end, &buf, length)
        }
        _ => false,
    }
}

// `within FILE COUNT AREA BUDGET END FILE`: fewer writes than there are.
fn within(text: &[u8], at: usize) -> bool {
    let mut buf = [0u8; 4096];
    let n = words::hex_bytes(text, at, &mut buf);
    let count_at = words::next_word(text, at);
    let area_at = words::next_word(text, count_at);
    let budget_at = words::next_word(text, area_at);
    let mut area = [0u8; 2048];
    let m = words::hex_bytes(text, area_at, &mut area);
    let count = words::unsigned(text, count_at) as usize;
    let budget = words::unsigned(text, budget_at) as usize;
    match tail_write::rewrite_within(&mut buf, n, &area[..m], count, budget) {
        Ok(Rewritten::Stopped { end, length }) => {
            is_found(text, words::next_word(text, budget_at), end, &buf, length)
        }
        _ => false,
    }
}

// Whether the answer in the line at this place is the library's.
fn agrees(text: &[u8], at: usize) -> bool {
    let from = words::next_word(text, at);
    if lists::starts_with(text, at, b"needed ") {
        needed(text, from)
    } else if lists::starts_with(text, at, b"end ") {
        end(text, from)
    } else if lists::starts_with(text, at, b"rewrite ") {
        rewrite(text, from)
    } else if lists::starts_with(text, at, b"within ") {
        within(text, from)
    } else {
        false
    }
}

fn main(rt: HostRuntime) -> io::Result<()> {
    let mut text = vectors::buffer();
    let n = input::read_full(&rt, &mut text)?;
    vectors::report(&rt, b"tails", vectors::replay_all(&text[..n], agrees))
}
