// Replays the published Rust's recorded answers for crates ape, ape_write and ape_replace.
#![tactic(auto)]

use replies::Refusal;
use std::io;

// `footer FILE PLACE`: where the footer stands, or `none`.
fn footer(text: &[u8], at: usize) -> bool {
    let mut file = [0u8; 2048];
    let n = words::hex_bytes(text, at, &mut file);
    let place = words::next_word(text, at);
    let none = lists::starts_with(text, place, b"none");
    match ape::find_ape_footer(&file[..n]) {
        Ok(Some(found)) => !none && found as u64 == words::unsigned(text, place),
        Ok(None) => none,
        Err(_) => false,
    }
}

// `read FILE COUNT AREA`: how many items and their area, or `none -`.
fn read(text: &[u8], at: usize) -> bool {
    let mut file = [0u8; 2048];
    let n = words::hex_bytes(text, at, &mut file);
    let count_at = words::next_word(text, at);
    let area_at = words::next_word(text, count_at);
    let none = lists::starts_with(text, count_at, b"none");
    let mut area = [0u8; 8192];
    match ape::read_ape_tag(&file[..n], &mut area) {
        Ok(Some(size)) => {
            !none
                && size.count as u64 == words::unsigned(text, count_at)
                && words::is_front(text, area_at, &area, size.length)
        }
        Ok(None) => none,
        Err(_) => false,
    }
}

// Whether a call wrote the bytes of the word at this place.
fn wrote(text: &[u8], at: usize, w: Result<usize, Refusal>, out: &[u8]) -> bool {
    match w {
        Ok(n) => words::is_front(text, at, out, n),
        Err(_) => false,
    }
}

// `replace FILE COUNT AREA FILE`.
fn replace(text: &[u8], at: usize) -> bool {
    let mut file = [0u8; 2048];
    let n = words::hex_bytes(text, at, &mut file);
    let count_at = words::next_word(text, at);
    let area_at = words::next_word(text, count_at);
    let mut area = [0u8; 2048];
    let m = words::hex_bytes(text, area_at, &mut area);
    let count = words::unsigned(text, count_at) as usize;
    let mut out = [0u8; 8192];
    let w = ape_replace::replace_ape_tag(&file[..n], &area[..m], count, &mut out);
    wrote(text, words::next_word(text, area_at), w, &out)
}

// `serialize COUNT AREA TAG`.
fn serialize(text: &[u8], at: usize) -> bool {
    let area_at = words::next_word(text, at);
    let mut area = [0u8; 2048];
    let m = words::hex_bytes(text, area_at, &mut area);
    let count = words::unsigned(text, at) as usize;
    let mut out = [0u8; 8192];
    let w = ape_write::serialize_ape_tag(&area[..m], count, &mut out);
    wrote(text, words::next_word(text, area_at), w, &out)
}

// `split FILE FRONT FROM TO`: where what precedes the tag ends, and where what follows it stands, or `none`.
fn split(text: &[u8], at: usize) -> bool {
    let mut file = [0u8; 4096];
    let n = words::hex_bytes(text, at, &mut file);
    let front = words::next_word(text, at);
    let from = words::next_word(text, front);
    let cut = ape_replace::split_ape_tag(&file[..n]);
    if cut.front as u64 != words::unsigned(text, front) {
        false
    } else if lists::starts_with(text, from, b"none") {
        cut.from == cut.to
    } else {
        cut.from as u64 == words::unsigned(text, from)
            && cut.to as u64 == words::unsigned(text, words::next_word(text, from))
    }
}

// Whether the answer in the line at this place is the library's.
fn agrees(text: &[u8], at: usize) -> bool {
    let from = words::next_word(text, at);
    if lists::starts_with(text, at, b"footer ") {
        footer(text, from)
    } else if lists::starts_with(text, at, b"read ") {
        read(text, from)
    } else if lists::starts_with(text, at, b"replace ") {
        replace(text, from)
    } else if lists::starts_with(text, at, b"serialize ") {
        serialize(text, from)
    } else if lists::starts_with(text, at, b"split ") {
        split(text, from)
    } else {
        false
    }
}

fn main(rt: HostRuntime) -> io::Result<()> {
    let mut text = vectors::buffer();
    let n = input::read_full(&rt, &mut text)?;
    vectors::report(&rt, b"ape", vectors::replay_all(&text[..n], agrees))
}
