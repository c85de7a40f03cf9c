// Whole numbers written, and the texts that hold them. Nothing here knows a tag.
#![tactic(auto)]

ghost use Rattle.std.specs.Prelude.{◌≡◌, ◌+◌, ◌-◌, ◌≤◌, ◌^◌, length, take};
ghost use Rattle.lists.specs.Write.{splice};
ghost use Rattle.decimal.specs.Writing as W;

// A text that was written: its bytes, zeros behind them, and how many there are. There is no heap, so its room is fixed; `as_slice` is the text.
#[derive(Clone, Copy)]
pub struct Text {
    pub bytes: [u8; 32],
    pub len: usize,
}

impl Text {
    // The bytes that were written.
    pub fn as_slice(&self) -> &[u8]
        requires { self.now.len ≤ length self.now.bytes }
        ensures { result.now ≡ take self.now.len self.now.bytes }
    {
        &self.bytes[..self.len]
    }
}

// How many digits `n` is written with: `least`, or as many more as it has. `past` is 10 to the power of `least`.
fn width(n: u32, least: usize, most: usize, past: u64) -> usize
    requires { (least ≤ most) × (past ≡ 10 ^ least) }
    ensures { (result ≤ most) × (W.decimal least (most - least) n ≡ W.places result n) }
{
    let mut p = past;
    for k in least..most {
        if u64::from(n) < p {
            return k;
        }
        p *= 10;
    }
    most
}

// Writes the last `k` digits of `n` into `out` from `at`, and answers where they end.
pub fn put_places(out: &mut [u8], at: usize, k: usize, n: u32) -> usize
    requires { at + k ≤ length out.old }
    ensures { (result ≡ at + length (W.places k n)) × (out.new ≡ splice out.old at (W.places k n)) }
{
    let mut rest = n;
    for i in (0..k).rev() {
        out[at + i] = (48 + rest % 10) as u8;
        rest /= 10;
    }
    at + k
}

// Writes `n` with `least` digits, or as many more as it has, `most` in all.
pub fn put_decimal(out: &mut [u8], at: usize, n: u32, least: usize, most: usize, past: u64) -> usize
    requires { (at + most ≤ length out.old) × (least ≤ most) × (past ≡ 10 ^ least) }
    ensures { (result ≡ at + length (W.decimal least (most - least) n))
        × (out.new ≡ splice out.old at (W.decimal least (most - least) n)) × (result ≤ at + most) }
{
    put_places(out, at, width(n, least, most, past), n)
}

// The byte of a sign.
pub fn sign_byte(minus: bool) -> u8
    ensures { result ≡ W.sign_byte minus }
{
    if minus { b'-' } else { b'+' }
}

// Writes `n` as `{:+04}` does.
pub fn put_signed(out: &mut [u8], at: usize, n: i32) -> usize
    requires { at + 11 ≤ length out.old }
    ensures { (result ≡ at + length (W.signed n)) × (out.new ≡ splice out.old at (W.signed n)) × (result ≤ at + 11) }
{
    out[at] = sign_byte(n < 0);
    put_decimal(out, at + 1, n.unsigned_abs(), 3, 10, 1000)
}
