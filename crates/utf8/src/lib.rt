// UTF-8 by the Unicode standard: what stands at a place of a text, where its characters end, and whether it is well formed.
#![tactic(auto)]

ghost use Rattle.std.specs.Prelude.{◌≡◌, true, ◌&&◌, ◌≤◌, ◌+◌, ltb, length, take, drop};
ghost use Rattle.utf8.specs.Utf8.{class, number_of, Classes, begins, follow, step_of, valid, plain};
ghost use Rattle.utf8.specs.Runs.{Stretch, Ran};

pub mod table;

// What stands at a place: a character of so many bytes, an ill-formed part of so many, or the end.
#[derive(Clone, Copy)]
pub enum Part {
    Good(usize),
    Bad(usize),
    End,
}

// Where characters end, and how many bytes the ill-formed part there has.
#[derive(Clone, Copy)]
pub struct Run {
    pub end: usize,
    pub bad: usize,
}

// The class number of a first byte.
fn number_of(table: &[u8; 256], b: u8) -> u8
    requires { Classes table.now }
    ensures { result ≡ number_of b }
{
    table[usize::from(b)]
}

// Does a byte from low to high stand at this place? Each test returns by itself: joined by && they are slower.
fn follows(s: &[u8], at: usize, low: u8, high: u8) -> bool
    ensures { result ≡ begins low high (drop at s.now) }
{
    if at >= s.len() {
        return false;
    }
    if s[at] < low {
        return false;
    }
    s[at] <= high
}

// A character of which MORE bytes are to follow, whose second stands at `at` and lies from low to high: is it there? No loop, which is slower.
fn character<const MORE: usize>(s: &[u8], at: usize, low: u8, high: u8) -> Part
    requires { (at ≤ length s.now) × (1 ≤ MORE) × (MORE ≤ 3) }
    ensures { result ≡ follow (class MORE low high) (drop at s.now) }
{
    if !follows(s, at, low, high) {
        return Part::Bad(1);
    }
    if MORE == 1 {
        return Part::Good(2);
    }
    if !follows(s, at + 1, 0x80, 0xBF) {
        return Part::Bad(2);
    }
    if MORE == 2 {
        return Part::Good(3);
    }
    if !follows(s, at + 2, 0x80, 0xBF) {
        return Part::Bad(3);
    }
    Part::Good(4)
}

// What stands at this place. Each number is a row of table 3-7; it is no enum, since the table is of bytes.
pub fn step_by(table: &[u8; 256], s: &[u8], at: usize) -> Part
    requires { Classes table.now }
    ensures { result ≡ step_of (drop at s.now) }
{
    if at >= s.len() {
        return Part::End;
    }
    let k = number_of(table, s[at]);
    let next = at + 1;
    match k {
        0 => Part::Good(1),
        1 => character::<1>(s, next, 0x80, 0xBF),
        2 => character::<2>(s, next, 0xA0, 0xBF),
        3 => character::<2>(s, next, 0x80, 0xBF),
        4 => character::<2>(s, next, 0x80, 0x9F),
        5 => character::<2>(s, next, 0x80, 0xBF),
        6 => character::<3>(s, next, 0x90, 0xBF),
        7 => character::<3>(s, next, 0x80, 0xBF),
        8 => character::<3>(s, next, 0x80, 0x8F),
        _ => Part::Bad(1),
    }
}

// What stands at this place of the text.
pub fn step(s: &[u8], at: usize) -> Part
    ensures { result ≡ step_of (drop at s.now) }
{
    let table = table::CLASS;
    step_by(&table, s, at)
}

// Whether N bytes from `at` are ASCII.
fn plain<const N: usize>(s: &[u8], at: usize) -> bool
    requires { at + N ≤ length s.now }
    ensures { result ≡ plain (take N (drop at s.now)) }
{
    lists::all_of::<N, _>(s, at, |b| b < 0x80)
}

// Where the whole blocks of ASCII from here end.
fn blocks_end(s: &[u8], from: usize) -> usize
    requires { from ≤ length s.now }
    ensures { Stretch s.now from result }
{
    let blocks = (s.len() - from) / 64;
    for k in 0..blocks {
        let at = from + k * 64;
        if !plain::<64>(s, at) {
            return at;
        }
    }
    from + blocks * 64
}

// Where the ASCII from here ends: whole blocks, then single bytes.
fn far_end(s: &[u8], from: usize) -> usize
    requires { from ≤ length s.now }
    ensures { Stretch s.now from result }
{
    for at in blocks_end(s, from)..s.len() {
        if s[at] >= 0x80 {
            return at;
        }
    }
    s.len()
}

// Where the ASCII from here ends. Blocks are tried only behind 32 bytes of it: among other characters few runs of ASCII are as long.
fn plain_end(s: &[u8], from: usize) -> usize
    requires { from ≤ length s.now }
    ensures { Stretch s.now from result }
{
    if s.len() - from < 32 {
        return far_end(s, from);
    }
    for i in 0..32 {
        if s[from + i] >= 0x80 {
            return from + i;
        }
    }
    far_end(s, from + 32)
}

// How far eights of ASCII reach from the front of a short text. The last eight may reach back into the first.
fn front_by_eights(s: &[u8]) -> usize
    requires { length s.now ≤ 16 }
    ensures { Stretch s.now 0 result }
{
    if s.len() < 8 || !plain::<8>(s, 0) {
        return 0;
    }
    if plain::<8>(s, s.len() - 8) {
        s.len()
    } else {
        8
    }
}

// The same by sixteens, of which the last may reach back into those before.
fn front_by_sixteens(s: &[u8]) -> usize
    requires { 16 ≤ length s.now }
    ensures { Stretch s.now 0 result }
{
    let back = s.len() - 16;
    let blocks = back.div_ceil(16);
    for k in 0..blocks {
        if !plain::<16>(s, k * 16) {
            return k * 16;
        }
    }
    if plain::<16>(s, back) {
        s.len()
    } else {
        blocks * 16
    }
}

// From how many bytes on ASCII is passed in longer blocks.
const LONG: usize = 512;

// How far blocks of ASCII reach from here, if this is the front of a text that is not long: most such texts are ASCII from end to end.
// Elsewhere none is tried: among other characters few runs of ASCII are as long as a block.
fn front_end(s: &[u8], from: usize) -> usize
    requires { from ≤ length s.now }
    ensures { Stretch s.now from result }
{
    if 0 < from || s.len() >= LONG {
        from
    } else if s.len() < 16 {
        front_by_eights(s)
    } else {
        front_by_sixteens(s)
    }
}

// Where the characters of three bytes from here end, of the row that has most of them. No `for`: each turn goes on by a character.
fn threes_end(table: &[u8; 256], s: &[u8], from: usize) -> usize
    requires { (Classes table.now) × (from ≤ length s.now) }
    ensures { Stretch s.now from result }
{
    let mut at = from;
    while at < s.len() {
        if number_of(table, s[at]) != 3 {
            return at;
        }
        let Part::Good(n) = character::<2>(s, at + 1, 0x80, 0xBF) else {
            return at;
        };
        at += n;
    }
    at
}

// Where the characters from here end, and how many bytes the ill-formed part there has: none at the end of the text. No `for`: each turn goes on
// by what stands there.
pub fn run_from(table: &[u8; 256], s: &[u8], from: usize) -> Run
    requires { (Classes table.now) × (from ≤ length s.now) }
    ensures { Ran s.now from result.end result.bad }
{
    let mut at = front_end(s, from);
    while at < s.len() {
        if s[at] < 0x80 {
            at = plain_end(s, at + 1);
            continue;
        }
        match step_by(table, s, at) {
            Part::Good(n) => {
                at = threes_end(table, s, at + n);
            }
            Part::Bad(n) => {
                return Run { end: at, bad: n };
            }
            Part::End => {
                return Run { end: at, bad: 0 };
            }
        }
    }
    Run { end: at, bad: 0 }
}

// Is the text well-formed UTF-8? With the table lent.
pub fn is_utf8_by(table: &[u8; 256], s: &[u8]) -> bool
    requires { Classes table.now }
    ensures { result ≡ valid s.now }
{
    run_from(table, s, 0).bad == 0
}

// Whether every byte is ASCII, sixteen at a time where there are as many: the last sixteen, and then the blocks from the start, of which the
// last may reach into those sixteen.
fn is_plain(s: &[u8]) -> bool
    ensures { result ≡ plain s.now }
{
    if s.len() < 16 {
        return s.iter().all(|&b| b < 0x80);
    }
    let last = s.len() - 16;
    if !plain::<16>(s, last) {
        return false;
    }
    for k in 0..last.div_ceil(16) {
        if !plain::<16>(s, k * 16) {
            return false;
        }
    }
    true
}

// Whether a text is ASCII that needs no table.
fn is_short_plain(s: &[u8]) -> bool
    ensures { result ≡ (ltb (length s.now) 512 && plain s.now) }
{
    s.len() < LONG && is_plain(s)
}

// Is the text well-formed UTF-8? Most texts that are set are short and ASCII: the table is not set up for them. It is a copy: with the constant
// borrowed, the compiler makes the loop over characters of two and four bytes slower.
pub fn is_utf8(s: &[u8]) -> bool
    ensures { result ≡ valid s.now }
{
    if is_short_plain(s) {
        return true;
    }
    let table = table::CLASS;
    is_utf8_by(&table, s)
}
