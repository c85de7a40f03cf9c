// The tail and gain arithmetic of frame.rs: numbers of four bytes, ID3v1 blocks, where a tag starts and the sound ends, and how a gain moves.
#![tactic(auto)]

ghost use Rattle.std.specs.Prelude.{◌≡◌, ◌≤◌, ◌<◌, ◌+◌, min, length};
ghost use Rattle.lists.specs.Le.{read_u32};
ghost use Rattle.integers.specs.Apart.{whole_of};
ghost use Rattle.frame.specs.Tail.{ends_with_id3v1, tag_start, tag_before, sound_end};
ghost use Rattle.frame.specs.Gain.{mode_of, adjust};

use integers::Apart;

// The eight bytes with which a header and a footer begin.
pub const APE_PREAMBLE: [u8; 8] = *b"APETAGEX";

// The flag of a tag that has a header.
pub const APE_FLAG_HEADER_PRESENT: u32 = 0x8000_0000;

// How a gain meets the ends of 0..255.
#[derive(Clone, Copy)]
pub enum GainMode {
    Saturating,
    Wrapping,
}

// A number of gain steps.
#[derive(Clone, Copy)]
pub struct GainSteps(pub i32);

impl GainMode {
    // The mode that the flag W asks for. It has a name, and is no `From<bool>`: the published Rust calls it so, and no call needs both.
    pub fn from_wrap(wrap: bool) -> GainMode
        ensures { result ≡ mode_of wrap }
    {
        if wrap {
            GainMode::Wrapping
        } else {
            GainMode::Saturating
        }
    }
}

// The number whose four bytes stand in `file` from `at`, the least first.
pub fn read_u32_le(file: &[u8], at: usize) -> u32
    requires { at + 4 ≤ length file.now }
    ensures { result ≡ read_u32 file.now at }
{
    u32::from_le_bytes([file[at], file[at + 1], file[at + 2], file[at + 3]])
}

// Whether `file` ends in a 128-byte ID3v1 block.
pub fn ends_with_id3v1(file: &[u8]) -> bool
    ensures { result ≡ ends_with_id3v1 file.now }
{
    128 <= file.len() && lists::starts_with(file, file.len() - 128, b"TAG")
}

// Where the tag whose footer stands in `file` at `footer` starts, its header included. No answer where no whole footer fits there, or where it
// says that the tag is longer than what precedes it.
pub fn ape_tag_start(file: &[u8], footer: usize) -> Option<usize>
    ensures { result ≡ tag_start file.now footer }
{
    if file.len() < 32 || file.len() - 32 < footer {
        return None;
    }
    let size = read_u32_le(file, footer + 12) as usize;
    let start = (footer + 32).checked_sub(size)?;
    if read_u32_le(file, footer + 20) < APE_FLAG_HEADER_PRESENT {
        Some(start)
    } else {
        start.checked_sub(32)
    }
}

// Where the tag starts whose footer ends at `end`; `end` itself where no footer stands there, or where it gives no start.
fn tag_before(file: &[u8], end: usize) -> usize
    requires { end ≤ length file.now }
    ensures { result ≡ tag_before file.now end }
{
    if end < 32 || !lists::starts_with(file, end - 32, &APE_PREAMBLE) {
        return end;
    }
    ape_tag_start(file, end - 32).unwrap_or(end)
}

// Where the sound of a file ends: before its ID3v1 block, if it has one, and before the tag that stands there.
pub fn find_audio_end(file: &[u8]) -> usize
    ensures { result ≡ sound_end file.now }
{
    if ends_with_id3v1(file) {
        tag_before(file, file.len() - 128)
    } else {
        tag_before(file, file.len())
    }
}

// A number of steps as a byte: no gain moves further.
pub fn within_byte(by: u32, most: u8) -> u8
    ensures { result ≡ min by most }
{
    by.min(u32::from(most)) as u8
}

// A gain moved within 0..255: 0 stays, all else stops at the ends. It is reckoned in bytes, so that a list takes sixteen gains at once.
fn saturating(current: u8, steps: Apart) -> u8
    ensures { result ≡ adjust GainMode.Saturating (whole_of steps) current }
{
    if steps.down {
        current.saturating_sub(within_byte(steps.by, 254) + 1)
    } else if current == 0 {
        0
    } else {
        current.saturating_add(within_byte(steps.by, 255))
    }
}

// A gain moved modulo 256.
fn wrapping(current: u8, steps: Apart) -> u8
    ensures { result ≡ adjust GainMode.Wrapping (whole_of steps) current }
{
    let by = (steps.by % 256) as u8;
    current.wrapping_add(if steps.down { 255 - by } else { by })
}

// What a gain is after so many steps, on every gain, every number of steps and both modes.
pub fn adjust_gain_value(current: u8, steps: GainSteps, mode: GainMode) -> u8
    ensures { result ≡ adjust mode steps.0 current }
{
    let a = integers::take_apart(steps.0);
    match mode {
        GainMode::Saturating => saturating(current, a),
        GainMode::Wrapping => wrapping(current, a),
    }
}
