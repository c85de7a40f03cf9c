// Bytes compared, searched and copied. Nothing here knows a format.
#![tactic(auto)]

ghost use Rattle.std.specs.Prelude.{◌≡◌, ℕ, ◌≤◌, ◌+◌, ◌-◌, Bool, length, take, drop};
ghost use Rattle.lists.specs.Bytes.{same, starts_with, place_of, all, Computes};
ghost use Rattle.lists.specs.Write.{splice, part};
ghost use Rattle.lists.specs.Le.{u32le};

// Whether the two hold the same bytes.
pub fn equal(a: &[u8], b: &[u8]) -> bool
    ensures { result ≡ same a.now b.now }
{
    a == b
}

// Whether the bytes of `text` stand in `s` from `at`.
pub fn starts_with(s: &[u8], at: usize, text: &[u8]) -> bool
    ensures { result ≡ starts_with text.now (drop at s.now) }
{
    s[at.min(s.len())..].starts_with(text)
}

// Whether N bytes from `at` pass the test. All are looked at, so that the compiler tests them at once.
pub fn all_of<const N: usize, F: Fn(u8) -> bool>(s: &[u8], at: usize, test: F) -> bool
    requires callable { F.IsAlwaysCallable test }
    requires inside { at + N ≤ length s.now }
    ensures { (p : ℕ → Bool) → Computes (F.post test) p → result ≡ all p (take N (drop at s.now)) }
{
    let mut other = false;
    for n in 0..N {
        other |= !test(s[at + n]);
    }
    !other
}

// `find_byte`, one byte at a time.
fn find_each(s: &[u8], at: usize, byte: u8) -> usize
    ensures { result ≡ at + place_of byte (drop at s.now) }
{
    for i in at..s.len() {
        if s[i] == byte {
            return i;
        }
    }
    at.max(s.len())
}

// The place of the first `byte` from `at`, or the end where there is none. Seven bytes are read for one test of the end. No `for`: to count the
// sevens first takes a division, and the keys of mp3gain end within three of them.
pub fn find_byte(s: &[u8], at: usize, byte: u8) -> usize
    ensures { result ≡ at + place_of byte (drop at s.now) }
{
    let stop = s.len().saturating_sub(6);
    let mut a = at;
    while a < stop {
        for k in 0..7 {
            if s[a + k] == byte {
                return a + k;
            }
        }
        a += 7;
    }
    find_each(s, a, byte)
}

// Writes all of `src` into `out` from `at`, and answers where it ends: in rising order of place, one byte after another, since a file that is rewritten
// where it is may be cut off between any two of them. No `copy_from_slice`: it calls `memmove`, and the archives need no C library.
pub fn put_rising(out: &mut [u8], at: usize, src: &[u8]) -> usize
    requires { at + length src.now ≤ length out.old }
    ensures { (result ≡ at + length src.now) × (out.new ≡ splice out.old at src.now) }
{
    for (i, &x) in src.iter().enumerate() {
        out[at + i] = x;
    }
    at + src.len()
}

// `put_rising` where the order is no matter.
pub fn put(out: &mut [u8], at: usize, src: &[u8]) -> usize
    requires { at + length src.now ≤ length out.old }
    ensures { (result ≡ at + length src.now) × (out.new ≡ splice out.old at src.now) }
{
    put_rising(out, at, src)
}

// `put` for a long part, 512 bytes of one half and 512 of the other in turn: a machine reads ahead at both places.
fn put_halves(out: &mut [u8], at: usize, src: &[u8]) -> usize
    requires { at + length src.now ≤ length out.old }
    ensures { (result ≡ at + length src.now) × (out.new ≡ splice out.old at src.now) }
{
    let n = src.len() / 1024;
    let half = n * 512;
    for k in 0..n {
        let i = k * 512;
        put(out, at + i, &src[i..i + 512]);
        let j = half + i;
        put(out, at + j, &src[j..j + 512]);
    }
    let both = half + half;
    put(out, at + both, &src[both..])
}

// Writes the part of `src` between two places into `out` from `at`, and answers where it ends.
pub fn put_part(out: &mut [u8], at: usize, src: &[u8], from: usize, to: usize) -> usize
    requires { (from ≤ to) × (to ≤ length src.now) × (at + (to - from) ≤ length out.old) }
    ensures { (result ≡ at + length (part from to src.now))
        × (out.new ≡ splice out.old at (part from to src.now)) × (result ≡ at + (to - from)) }
{
    put(out, at, &src[from..to])
}

// From how many bytes on a part is written by halves: such a part is larger than most caches.
const HUGE: usize = 6291456;

// `put_part` for a part that may be long.
pub fn put_long_part(out: &mut [u8], at: usize, src: &[u8], from: usize, to: usize) -> usize
    requires { (from ≤ to) × (to ≤ length src.now) × (at + (to - from) ≤ length out.old) }
    ensures { (result ≡ at + length (part from to src.now))
        × (out.new ≡ splice out.old at (part from to src.now)) × (result ≡ at + (to - from)) }
{
    if to - from < HUGE {
        put_part(out, at, src, from, to)
    } else {
        put_halves(out, at, &src[from..to])
    }
}

// Writes the four bytes of `x` into `out` from `at`, the least first.
pub fn put_u32_le(out: &mut [u8], at: usize, x: u32) -> usize
    requires { at + 4 ≤ length out.old }
    ensures { (result ≡ at + 4) × (out.new ≡ splice out.old at (u32le x)) }
{
    put(out, at, &x.to_le_bytes())
}
