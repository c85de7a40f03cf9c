// Replays the recorded answers of Rust's standard library for crates utf8, lossy and singly.
#![tactic(auto)]

ghost use Rattle.std.specs.Prelude.{◌≤◌};

use std::io;

// `utf8 TEXT BOOL`.
fn well_formed(text: &[u8], at: usize) -> bool {
    let mut s = [0u8; 1024];
    let n = words::hex_bytes(text, at, &mut s);
    utf8::is_utf8(&s[0..n]) == lists::starts_with(text, words::next_word(text, at), b"1")
}

// Whether the conversion fits and has this length.
fn fits(s: &[u8], out: &mut [u8]) -> bool {
    lossy::lossy_into(s, out) == Some(out.len())
}

// Whether these are what the conversion writes into room for m bytes.
fn writes(s: &[u8], m: usize, wanted: &[u8; 3072]) -> bool
    requires { m ≤ 3072 }
{
    let mut out = [0u8; 3072];
    fits(s, &mut out[0..m]) && out == *wanted
}

// Whether room for m bytes is not enough, and stays as it was.
fn refuses(s: &[u8], m: usize) -> bool
    requires { m ≤ 3072 }
{
    let mut out = [0u8; 3072];
    !fits(s, &mut out[0..m]) && out == [0u8; 3072]
}

// Whether the single-byte conversion gives the same in room for m bytes.
fn singly(s: &[u8], m: usize) -> bool
    requires { m ≤ 3072 }
{
    let mut blocks = [0u8; 3072];
    let mut single = [0u8; 3072];
    singly::both_same(s, &mut blocks[0..m], &mut single[0..m])
}

// `lossy TEXT CONVERTED`: in exactly enough room, and in one byte less.
fn lossy(text: &[u8], at: usize) -> bool {
    let mut s = [0u8; 1024];
    let n = words::hex_bytes(text, at, &mut s);
    let mut wanted = [0u8; 3072];
    let m = words::hex_bytes(text, words::next_word(text, at), &mut wanted);
    let s = &s[0..n];
    let less = m == 0 || refuses(s, m - 1) && singly(s, m - 1);
    less && writes(s, m, &wanted) && singly(s, m)
}

// `size TEXT ROOM SIZE`: how long the conversion is, or `none` where there is not so much room.
fn size(text: &[u8], at: usize) -> bool {
    let mut s = [0u8; 1024];
    let n = words::hex_bytes(text, at, &mut s);
    let room = words::next_word(text, at);
    let wanted = words::next_word(text, room);
    let none = lists::starts_with(text, wanted, b"none");
    match lossy::lossy_size(&s[0..n], words::unsigned(text, room) as usize) {
        Some(found) => !none && found as u64 == words::unsigned(text, wanted),
        None => none,
    }
}

// Whether the answer in the line at this place is the library's.
fn agrees(text: &[u8], at: usize) -> bool {
    let from = words::next_word(text, at);
    if lists::starts_with(text, at, b"utf8 ") {
        well_formed(text, from)
    } else if lists::starts_with(text, at, b"lossy ") {
        lossy(text, from)
    } else if lists::starts_with(text, at, b"size ") {
        size(text, from)
    } else {
        false
    }
}

fn main(rt: HostRuntime) -> io::Result<()> {
    let mut text = vectors::buffer();
    let n = input::read_full(&rt, &mut text)?;
    vectors::report(&rt, b"utf8", vectors::replay_all(&text[..n], agrees))
}
