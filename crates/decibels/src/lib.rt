// Gain texts and decibels. Every amount is exact until it is rounded to a millionth.
#![tactic(auto)]

ghost use Rattle.std.specs.Prelude.{◌≡◌, ◌+◌, ◌*◌, ◌<◌, ◌-ℤ◌, option_map};
ghost use Rattle.number.specs.Reading.{with_sign};
ghost use Rattle.decimal.specs.Writing.{text_of};
ghost use Rattle.decibels.specs.Gain as G;

use decimal::Text;
use frame::GainSteps;

// An amount of decibels: whether it is below zero, whole millionths, and the rest in units of 10^-15 dB.
// That the rest is below 10^9 stands in the contracts, not in the type: the definitions make an amount of any three values.
#[derive(Clone, Copy)]
pub struct Millionths(pub bool, pub u64, pub u64);

// Steps as decibels, exactly: each is 1.505149978319906.
pub fn steps_to_db(steps: GainSteps) -> Millionths
    ensures { (result ≡ G.steps_to_db steps.0) × (result.1 < 3300000000000000) × (result.2 < 1000000000) }
{
    let n = u64::from(steps.0.unsigned_abs());
    let fine = n * 978319906;
    Millionths(
        steps.0 < 0,
        n * 1505149 + fine / 1000000000,
        fine % 1000000000,
    )
}

// The difference of two amounts of one sign, the first of whole millionths. Zero keeps the sign.
fn apart(minus: bool, m: u64, b: Millionths) -> Millionths
    requires { (m < 10000000000) × (b.1 < 3300000000000000) × (b.2 < 1000000000) }
    ensures { (result ≡ G.amount minus (with_sign minus (m * 1000000000) -ℤ with_sign minus (G.units b))) × (result.1 < 3300010000000000)
        × (result.2 < 1000000000) }
{
    if m < b.1 {
        Millionths(!minus, b.1 - m, b.2)
    } else if b.2 == 0 {
        Millionths(minus, m - b.1, 0)
    } else if m == b.1 {
        Millionths(!minus, 0, b.2)
    } else {
        Millionths(minus, m - b.1 - 1, 1000000000 - b.2)
    }
}

// a - b, for an `a` of whole millionths. Zero keeps the sign of `a`.
fn subtract(a: Millionths, b: Millionths) -> Millionths
    requires { (a.1 < 10000000000) × (a.2 ≡ 0) × (b.1 < 3300000000000000) × (b.2 < 1000000000) }
    ensures { (result ≡ G.amount a.0 (G.exact a -ℤ G.exact b)) × (result.1 < 3300010000000000) × (result.2 < 1000000000) }
{
    if a.0 == b.0 {
        apart(a.0, a.1, b)
    } else {
        Millionths(a.0, a.1 + b.1, b.2)
    }
}

// To the nearest millionth.
fn rounded(a: Millionths) -> Millionths
    requires { (a.1 < 3300010000000000) × (a.2 < 1000000000) }
    ensures { (result ≡ G.nearest a) × (result.1 < 4000000000000000) }
{
    if a.2 < 500000000 {
        Millionths(a.0, a.1, 0)
    } else {
        Millionths(a.0, a.1 + 1, 0)
    }
}

// The digits behind the point, and nothing or ` dB` after them.
fn fraction(s: &[u8]) -> Option<u32>
    ensures { result ≡ G.fraction s.now }
{
    if s.len() < 6 || !is_unit(&s[6..]) {
        return None;
    }
    number::parse_natural(&s[..6], 999999)
}

// Nothing, or ` dB`.
fn is_unit(s: &[u8]) -> bool
    ensures { result ≡ G.is_unit s.now }
{
    lists::equal(s, b"") || lists::equal(s, b" dB")
}

// The millionths of a gain text without its sign.
fn parse_millionths(s: &[u8]) -> Option<u64>
    ensures { result ≡ G.millionths s.now }
{
    let e = lists::find_byte(s, 0, b'.');
    if e == s.len() {
        return None;
    }
    if 4 < e {
        return None;
    }
    let a = number::parse_natural(&s[..e], 9999)?;
    let b = fraction(&s[e + 1..])?;
    Some(u64::from(a) * 1000000 + u64::from(b))
}

// Reads a gain text.
pub fn parse_gain(text: &[u8]) -> Option<Millionths>
    ensures { result ≡ G.parse_gain text.now }
{
    let minus = number::is_minus(text);
    let n = parse_millionths(&text[number::sign_len(text)..])?;
    Some(Millionths(minus, n, 0))
}

// The text of an amount of whole millionths.
fn format_gain(a: Millionths) -> Text
    requires { a.1 < 4000000000000000 }
    ensures { result ≡ text_of (G.format_gain a) }
{
    let mut bytes = [0u8; 32];
    let p = lists::put(&mut bytes, 0, &[decimal::sign_byte(a.0)]);
    let q = decimal::put_decimal(&mut bytes, p, (a.1 / 1000000) as u32, 1, 10, 10);
    let r = lists::put(&mut bytes, q, b".");
    let s = decimal::put_places(&mut bytes, r, 6, (a.1 % 1000000) as u32);
    let len = lists::put(&mut bytes, s, b" dB");
    Text { bytes, len }
}

// A gain text less so many steps, to the nearest millionth. A text of another form stays as found.
pub fn shift_gain(text: &[u8], steps: GainSteps) -> Option<Text>
    ensures { result ≡ option_map text_of (G.shift_gain steps.0 text.now) }
{
    let g = parse_gain(text)?;
    let left = subtract(g, steps_to_db(steps));
    Some(format_gain(rounded(left)))
}
