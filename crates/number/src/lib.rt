// Whole numbers read from texts. Nothing here knows a tag.
#![tactic(auto)]

ghost use Rattle.std.specs.Prelude.{◌≡◌, ◌-◌, ◌≤◌, ◌<◌, length, take, drop, leb};
ghost use Rattle.lists.specs.Choice.{provided};
ghost use Rattle.number.specs.Trim as T;
ghost use Rattle.number.specs.Fields as F;
ghost use Rattle.number.specs.Reading as R;

#[tactic(auto, using(std::proofs::lemmas::Bool::Decides::nat_tests), unfolding(crate::specs::Trim::is_space))]
fn is_space(x: u8) -> bool
    ensures { result ≡ T.is_space x }
{
    matches!(x, 9..=13 | 32)
}

#[tactic(auto, using(std::proofs::lemmas::Bool::Decides::nat_tests), unfolding(crate::specs::Reading::is_digit))]
pub fn is_digit(x: u8) -> bool
    ensures { result ≡ R.is_digit x }
{
    48 <= x && x <= 57
}

// The place of the first byte that is no space.
fn front(s: &[u8]) -> usize
    ensures { (result ≤ length s.now) × (drop result s.now ≡ T.trim_left s.now) }
{
    s.iter().position(|x| !is_space(*x)).unwrap_or(s.len())
}

// The place behind the last byte that is no space.
fn back(s: &[u8]) -> usize
    ensures { (result ≤ length s.now) × (take result s.now ≡ T.trim_right s.now) }
{
    s.len()
        - s.iter()
            .rev()
            .position(|x| !is_space(*x))
            .unwrap_or(s.len())
}

// The text without the spaces at its ends.
pub fn trim<'a>(s: &'a [u8]) -> &'a [u8]
    ensures { result.now ≡ T.trim s.now }
{
    let t = &s[front(s)..];
    &t[..back(t)]
}

// Digits, one at least, that give a number up to `limit`.
pub fn parse_natural(s: &[u8], limit: u32) -> Option<u32>
    ensures { result ≡ provided (λ n. leb n limit) (R.natural s.now) }
{
    if s.is_empty() {
        return None;
    }
    let mut n: u64 = 0;
    for &x in s {
        if !is_digit(x) {
            return None;
        }
        n = n * 10 + u64::from(x - b'0');
        if u64::from(limit) < n {
            return None;
        }
    }
    Some(n as u32)
}

// Whether a `-` stands in front.
#[tactic(auto, unfolding(crate::specs::Reading::is_minus))]
pub fn is_minus(s: &[u8]) -> bool
    ensures { result ≡ R.is_minus s.now }
{
    matches!(s, [b'-', ..])
}

// How many bytes the sign has.
#[tactic(auto, using(std::proofs::lemmas::Bool::Decides::nat_tests, crate::proofs::Digits::unsigned_is))]
pub fn sign_len(s: &[u8]) -> usize
    ensures { (result ≤ length s.now) × (drop result s.now ≡ R.unsigned s.now) }
{
    match s {
        [b'+' | b'-', ..] => 1,
        _ => 0,
    }
}

// An optional sign and digits, nothing trimmed.
pub fn parse_whole(s: &[u8]) -> Option<i32>
    ensures { result ≡ provided R.is_i32 (R.whole s.now) }
{
    let n = i64::from(parse_natural(&s[sign_len(s)..], 2147483648)?);
    i32::try_from(if is_minus(s) { -n } else { n }).ok()
}

// A field of an undo text.
pub fn parse_i32(s: &[u8]) -> Option<i32>
    ensures { result ≡ R.i32 s.now }
{
    parse_whole(trim(s))
}

// A field of a range: no `-`, not even before 0.
pub fn parse_u8(s: &[u8]) -> Option<u8>
    ensures { result ≡ R.u8 s.now }
{
    let t = trim(s);
    if is_minus(t) {
        return None;
    }
    let n = parse_natural(&t[sign_len(t)..], 255)?;
    Some(n as u8)
}

// Field `n` of the fields between commas, empty where there is none.
pub fn field<'a>(s: &'a [u8], n: usize) -> &'a [u8]
    ensures { result.now ≡ F.field n s.now }
{
    let mut at = 0;
    for _ in 0..n {
        let e = lists::find_byte(s, at, b',');
        if e == s.len() {
            return &s[e..];
        }
        at = e + 1;
    }
    let e = lists::find_byte(s, at, b',');
    &s[at..e]
}
