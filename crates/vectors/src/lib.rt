// A replay of recorded answers: lines of words. A line that begins with `#` is a comment.
#![tactic(auto)]

ghost use Rattle.std.specs.Prelude.{◌≡◌, ◌*◌, ◌%◌, ◌^◌, ◌<◌, ◌≤◌, length, replicate};
ghost use Rattle.lists.specs.Write.{over};
ghost use Rattle.vectors.specs.Digest.{digest_of};
ghost use Rattle.vectors.specs.Lines as L;

use std::io;
use std::io::Write;

// A replay on its way: the place of the next answer, how many were replayed, and how many of them differ.
#[derive(Clone, Copy)]
pub struct Replay {
    pub at: usize,
    pub answers: u32,
    pub differ: u32,
}

// The first line from here that is no comment.
fn answer_from(text: &[u8], at: usize) -> usize
    ensures { result ≡ L.answer_from text.now at }
{
    let mut within = false;
    for i in at..text.len() {
        if within {
            within = text[i] != b'\n';
        } else if text[i] == b'#' {
            within = true;
        } else {
            return i;
        }
    }
    at.max(text.len())
}

// Before the first answer.
pub fn start(text: &[u8]) -> Replay
    ensures { result ≡ L.started text.now }
{
    Replay {
        at: answer_from(text, 0),
        answers: 0,
        differ: 0,
    }
}

// One more answer was replayed: on to the next.
pub fn counted(text: &[u8], r: Replay, agrees: bool) -> Replay
    ensures { (result ≡ L.counted text.now r agrees) × (r.at < length text.now → r.at < result.at) }
{
    Replay {
        at: answer_from(text, words::behind(text, r.at, b'\n')),
        answers: r.answers.wrapping_add(1),
        differ: if agrees {
            r.differ
        } else {
            r.differ.wrapping_add(1)
        },
    }
}

// Replays every answer: `agrees` says whether the one at a place is the library's. No `for`: each turn goes on by a line.
pub fn replay_all<F: Fn(&[u8], usize) -> bool>(text: &[u8], agrees: F) -> Replay
    requires { F.IsAlwaysCallable agrees }
    ensures { length text.now ≤ result.at }
{
    let mut r = start(text);
    while r.at < text.len() {
        r = counted(text, r, agrees(text, r.at));
    }
    r
}

// One more byte of a digest (FNV-1a, 64 bits).
pub fn digest(h: u64, b: u8) -> u64
    ensures { result ≡ digest_of h b }
{
    (h ^ u64::from(b)).wrapping_mul(0x100_0000_01B3)
}

// Room for a whole list.
pub fn buffer() -> [u8; 1048576]
    ensures { result ≡ replicate 1048576 0 }
{
    [0u8; 1048576]
}

// Puts the line of a replay, without its name, at the front of `out`, and answers its length.
pub fn line(r: Replay, out: &mut [u8; 40]) -> usize
    ensures { (result ≡ length (L.line_of r)) × (out.new ≡ over (L.line_of r) out.old) × (result ≤ length out.new) }
{
    let a = decimal::put_decimal(out, 0, r.answers, 1, 10, 10);
    let b = lists::put(out, a, b" answers, ");
    let c = decimal::put_decimal(out, b, r.differ, 1, 10, 10);
    lists::put(out, c, b" differ\n")
}

// Writes what a replay found, in one line.
pub fn report(rt: &impl Print, name: &[u8], r: Replay) -> io::Result<()> {
    let mut out = [0u8; 40];
    let n = line(r, &mut out);
    let mut writer = io::writer(rt);
    writer.write_all(name)?;
    writer.write_all(b": ")?;
    writer.write_all(&out[0..n])
}
