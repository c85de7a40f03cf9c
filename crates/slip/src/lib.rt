// The level slip: `left=`, `right=` and perhaps `mode=`, a line each.
#![tactic(auto)]

ghost use Rattle.std.specs.Prelude.{◌≡◌};
ghost use Rattle.slip.specs.Slip as S;

use frame::{GainMode, GainSteps};
use replies::Refusal;

// What a slip of good form asks for: steps for either side, and how they meet the ends. Where it names no mode, who knows the file resolves it.
#[derive(Clone, Copy)]
pub struct Wish {
    pub left: GainSteps,
    pub right: GainSteps,
    pub mode: Option<GainMode>,
}

// The number of a line that begins with `name`: an optional sign and 1 to 5 digits.
fn step_line(name: &[u8], line: &[u8]) -> Option<i32>
    ensures { result ≡ S.step_line name.now line.now }
{
    if !lists::starts_with(line, 0, name) {
        return None;
    }
    let text = &line[name.len()..];
    if 5 < text.len() - number::sign_len(text) {
        return None;
    }
    number::parse_whole(text)
}

// The mode that the rest of a slip names, if it names one; none at all where the rest has another form.
#[tactic(auto, unfolding(crate::specs::Slip::mode_line))]
fn mode_line(rest: &[u8]) -> Option<Option<GainMode>>
    ensures { result ≡ S.mode_line rest.now }
{
    if lists::equal(rest, b"") {
        Some(None)
    } else if lists::equal(rest, b"mode=W\n") {
        Some(Some(GainMode::Wrapping))
    } else if lists::equal(rest, b"mode=N\n") {
        Some(Some(GainMode::Saturating))
    } else {
        None
    }
}

// Whether it is a step in -255..255.
pub fn is_step(n: i32) -> bool
    ensures { result ≡ S.is_step n }
{
    n.unsigned_abs() <= 255
}

// What two lines and the rest of a slip ask for.
#[tactic(auto, unfolding(crate::specs::Slip::lines_form))]
fn lines_form(first: &[u8], second: &[u8], rest: &[u8]) -> Option<Wish>
    ensures { result ≡ S.lines_form first.now second.now rest.now }
{
    let left = step_line(b"left=", first)?;
    let right = step_line(b"right=", second)?;
    let mode = mode_line(rest)?;
    Some(Wish {
        left: GainSteps(left),
        right: GainSteps(right),
        mode,
    })
}

// What a slip asks for, whatever the size of its numbers.
pub fn slip_form(text: &[u8]) -> Option<Wish>
    ensures { result ≡ S.slip_form text.now }
{
    let a = lists::find_byte(text, 0, b'\n');
    if a == text.len() {
        return None;
    }
    let behind = &text[a + 1..];
    let b = lists::find_byte(behind, 0, b'\n');
    if b == behind.len() {
        return None;
    }
    lines_form(&text[..a], &behind[..b], &behind[b + 1..])
}

// Reads a slip. A bad form answers 13; a good one with a number outside -255..255 answers 2.
pub fn parse_slip(text: &[u8]) -> Result<Wish, Refusal>
    ensures { result ≡ S.read_slip text.now }
{
    let wish = slip_form(text).ok_or(Refusal::MalformedSlip)?;
    if !is_step(wish.left.0) || !is_step(wish.right.0) {
        return Err(Refusal::StepOutOfRange);
    }
    Ok(wish)
}
