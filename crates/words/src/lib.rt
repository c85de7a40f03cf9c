// The words of a line, one space between them: the next one, and the number or the bytes that one stands for.
//
// Each function takes the whole text and a place in it, and is total: a word of another form gives some number, so that a damaged
// list shows as a difference.
#![tactic(auto)]

ghost use Rattle.std.specs.Prelude.{◌≡◌, ◌*◌, ◌%◌, ◌^◌, ◌≤◌, ◌<◌, ◌&&◌, leb, length, take, drop};
ghost use Rattle.lists.specs.Bytes.{same};
ghost use Rattle.lists.specs.Write.{over};
ghost use Rattle.words.specs.Words as W;

// The place behind the first `end` from here, or the end of the text.
pub fn behind(text: &[u8], at: usize, end: u8) -> usize
    ensures { result ≡ W.behind end text.now at }
{
    let e = lists::find_byte(text, at, end);
    if e < text.len() { e + 1 } else { text.len() }
}

// The word behind this one.
pub fn next_word(text: &[u8], at: usize) -> usize
    ensures { result ≡ W.behind 32 text.now at }
{
    behind(text, at, b' ')
}

// The value of a hex digit.
fn hex_digit(b: u8) -> Option<u8>
    ensures { result ≡ W.digit b }
{
    match b {
        b'0'..=b'9' => Some(b - b'0'),
        b'a'..=b'f' => Some(b - b'a' + 10),
        _ => None,
    }
}

// The digits of this base at this place as a number, up to the first other byte, modulo `top` times the base.
fn digits(text: &[u8], at: usize, base: u64, top: u64) -> u64
    requires { (0 < base) × (0 < top) × (top * base ≤ 2 ^ 64) }
    ensures { result ≡ W.number base 0 (drop at text.now) % (top * base) }
{
    let mut n: u64 = 0;
    for i in at..text.len() {
        let Some(digit) = hex_digit(text[i]) else {
            return n;
        };
        let d = u64::from(digit);
        if base <= d {
            return n;
        }
        n = n % top * base + d;
    }
    n
}

// A decimal number, by its last 19 digits.
pub fn unsigned(text: &[u8], at: usize) -> u64
    ensures { result ≡ W.unsigned_of (drop at text.now) }
{
    digits(text, at, 10, 1_000_000_000_000_000_000)
}

// A hex number, by its last 16 digits.
pub fn hex64(text: &[u8], at: usize) -> u64
    ensures { result ≡ W.number 16 0 (drop at text.now) % 2 ^ 64 }
{
    digits(text, at, 16, 0x1000_0000_0000_0000)
}

// A decimal number that may have a `-` in front.
pub fn signed(text: &[u8], at: usize) -> i32
    ensures { result ≡ W.signed_of (drop at text.now) }
{
    if text.len() <= at {
        return 0;
    }
    if text[at] == b'-' {
        let n = unsigned(text, at + 1);
        if n == 0 {
            return 0;
        }
        let by = ((n - 1) % 2147483648) as u32;
        return integers::together(integers::Apart { down: true, by });
    }
    let by = (unsigned(text, at) % 2147483648) as u32;
    integers::together(integers::Apart { down: false, by })
}

// The byte whose two hex digits stand at this place.
fn hex_byte(text: &[u8], at: usize) -> Option<u8>
    ensures { result ≡ W.hex_byte (drop at text.now) }
{
    if text.len() < 2 || text.len() - 2 < at {
        return None;
    }
    let high = hex_digit(text[at])?;
    let low = hex_digit(text[at + 1])?;
    Some(high * 16 + low)
}

// Puts the bytes of a word of hex digits at the front of `out`, as many as fit, and answers how many.
pub fn hex_bytes(text: &[u8], at: usize, out: &mut [u8]) -> usize
    ensures { let new = take (length out.old) (W.hex_bytes (drop at text.now)) in
        (result ≡ length new) × (out.new ≡ over new out.old) × (result ≤ length out.old) }
{
    let mut i = at;
    for n in 0..out.len() {
        let Some(b) = hex_byte(text, i) else {
            return n;
        };
        out[n] = b;
        i += 2;
    }
    out.len()
}

// Whether the word at this place is the hex of the first n of these bytes.
pub fn is_front(text: &[u8], at: usize, bytes: &[u8], n: usize) -> bool
    ensures { result ≡ (leb n (length bytes.now) && same (W.hex_bytes (drop at text.now)) (take n bytes.now)) }
{
    n <= bytes.len() && is_hex(text, at, &bytes[..n])
}

// Whether the word at this place is the hex of these bytes.
pub fn is_hex(text: &[u8], at: usize, bytes: &[u8]) -> bool
    ensures { result ≡ same (W.hex_bytes (drop at text.now)) bytes.now }
{
    let mut i = at;
    for &b in bytes {
        if hex_byte(text, i) != Some(b) {
            return false;
        }
        i += 2;
    }
    hex_byte(text, i).is_none()
}
