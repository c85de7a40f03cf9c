// Peak texts, moved with the gains. Every comparison is exact.
#![tactic(auto)]

ghost use Rattle.std.specs.Prelude.{◌≡◌, true, ◌*◌, ◌^◌, ◌<◌, ◌≤◌, option_map};
ghost use Rattle.decimal.specs.Writing.{text_of};
ghost use Rattle.peaks.specs.Halves as Halves;
ghost use Rattle.peaks.specs.Peak as Peak;

use decimal::Text;
use frame::GainSteps;

// The fourth power of v, taken m times.
fn fourth(v: u64, m: u64) -> u128
    requires { (v ≤ 536870912) × (m ≤ 8) }
    ensures { result ≡ v ^ 4 * m }
{
    let square = u128::from(v * v);
    square * square * u128::from(m)
}

// x times 2 to the power q, or 2^29 where that is less.
fn capped(x: u64, q: u32) -> u64
    requires { x < 536870912 }
    ensures { (result ≡ Halves.capped x q) × (result ≤ 536870912) }
{
    if x == 0 {
        0
    } else if 28 < q {
        536870912
    } else {
        (x << q).min(536870912)
    }
}

// Whether n - 1/2, doubled and times 2 to the power q, is at most the fourth root of w.
fn reaches(n: u64, q: u32, w: u128) -> bool
    requires { (0 < n) × (n ≤ 134217728) }
    ensures { result ≡ Halves.within q w n }
{
    fourth(capped(2 * n - 1, q), 1) <= w
}

// The first number that is reached, from `most` down.
fn down_from(most: u64, q: u32, w: u128) -> u64
    requires { most < 134217728 }
    ensures { (result < 134217728) × (0 < result → Halves.within q w result ≡ true) }
{
    for n in (1..most + 1).rev() {
        if reaches(n, q, w) {
            return n;
        }
    }
    0
}

// The largest number below 2^27 that is reached, from `least` up, which is reached.
fn up_from(least: u64, q: u32, w: u128) -> u64
    requires { (least < 134217728) × (0 < least → Halves.within q w least ≡ true) }
    ensures { (result ≡ Peak.largest (Halves.within q w) 27 0) × (result < 134217728) }
{
    for n in least..134217727 {
        if !reaches(n + 1, q, w) {
            return n;
        }
    }
    134217727
}

// 2 to the power k / 4, times 2^32, for k below 4: near enough to guess by.
fn root(k: u32) -> u64
    ensures { result ≤ 7223146361 }
{
    match k {
        0 => 4294967296,
        1 => 5107605667,
        2 => 6074000999,
        _ => 7223146361,
    }
}

// A guess at v / 2 times 2 to the power k / 4, divided by 2 to the power q.
fn guess(v: u64, k: u32, q: u32) -> u64
    requires { v ≤ 536870912 }
    ensures { result < 134217728 }
{
    if 31 < q {
        return 0;
    }
    (((v * root(k) >> (32 + q)) + 1) / 2).min(134217727)
}

// v / 2 times 2 to the power k / 4, divided by 2 to the power q, and rounded: a guess, put right.
fn rounded(v: u64, k: u32, q: u32) -> u64
    requires { (v ≤ 536870912) × (k < 4) }
    ensures { (result ≡ Peak.largest (Halves.within q (v ^ 4 * 2 ^ k)) 27 0) × (result < 134217728) }
{
    let w = fourth(v, 1 << k);
    up_from(down_from(guess(v, k, q), q, w), q, w)
}

// p millionths after so many steps.
fn new_count(p: u32, steps: GainSteps) -> u64
    requires { p < 100000000 }
    ensures { (result ≡ Peak.new_count steps.0 p) × (result < 134217728) }
{
    let v = 2 * u64::from(p);
    let k = steps.0.rem_euclid(4) as u32;
    let q = steps.0 >> 2;
    if q < 0 {
        rounded(v, k, q.unsigned_abs())
    } else {
        rounded(capped(v, q as u32), k, 0)
    }
}

// Reads a peak text: 1 or 2 digits, a point and 6 digits.
fn parse_peak(s: &[u8]) -> Option<u32>
    ensures { result ≡ Peak.parse_peak s.now }
{
    let e = lists::find_byte(s, 0, b'.');
    if e == s.len() {
        return None;
    }
    if 2 < e {
        return None;
    }
    if s.len() - e != 7 {
        return None;
    }
    let a = number::parse_natural(&s[..e], 99)?;
    let b = number::parse_natural(&s[e + 1..], 999999)?;
    Some(a * 1000000 + b)
}

// The text of a count of millionths.
fn format_peak(n: u32) -> Text
    requires { n < 100000000 }
    ensures { result ≡ text_of (Peak.format_peak n) }
{
    let mut bytes = [0u8; 32];
    let a = decimal::put_decimal(&mut bytes, 0, n / 1000000, 1, 2, 10);
    let b = lists::put(&mut bytes, a, b".");
    let len = decimal::put_places(&mut bytes, b, 6, n % 1000000);
    Text { bytes, len }
}

// A peak text after so many steps. A text of another form, and one that would pass 99.999999, stay as found.
pub fn shift_peak(text: &[u8], steps: GainSteps) -> Option<Text>
    ensures { result ≡ option_map text_of (Peak.shift_peak steps.0 text.now) }
{
    let p = parse_peak(text)?;
    let n = new_count(p, steps);
    if 100000000 <= n {
        return None;
    }
    Some(format_peak(n as u32))
}
