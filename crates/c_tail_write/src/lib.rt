// The faces of crate tail_write.
#![tactic(auto)]

ghost use Rattle.std.specs.Prelude.{◌≡◌};
ghost use Rattle.tail_write.specs.Answers.{rewrite_plan, rewrite_answer, rewrite_buffer, whole_answer, whole_buffer};
ghost use Rattle.c_tail_write.specs.TailWriteFace.{rewritten_face};

use replies::Refusal;
use tail_write::Rewritten;

// The reply to a rewriting, and into the lent numbers whether all writes were made, the first place that is written, and the length of the file.
fn put_rewritten(
    w: Result<Rewritten, Refusal>,
    whole: &mut u32,
    end: &mut usize,
    total: &mut usize,
) -> u32
    ensures { let face = rewritten_face w whole.old end.old total.old in
        (result ≡ face.reply) × (whole.new ≡ face.whole) × (end.new ≡ face.end) × (total.new ≡ face.length) }
{
    match w {
        Ok(Rewritten::Done { end: e, length: m }) => {
            *whole = 1;
            *end = e;
            *total = m;
            0
        }
        Ok(Rewritten::Stopped { end: e, length: m }) => {
            *whole = 0;
            *end = e;
            *total = m;
            0
        }
        Err(r) => replies::number(r),
    }
}

// The end of the file at the front of `buf`, whose length is lent, rewritten by the `count` items of `area`: the first place that was written, or the
// file's length where nothing was, and the new length, which is set last. Refusals 5 for a length past the buffer, then 1, 12 and 5.
#[unsafe(no_mangle)]
pub extern "C" fn zib_rewrite_ape_tail(
    buf: &mut [u8],
    total: &mut usize,
    area: &[u8],
    count: usize,
    end: &mut usize,
) -> u32
    ensures { let plan = rewrite_plan buf.old total.old area.now count in
        let face = rewritten_face (whole_answer plan) 0 end.old total.old in
        (result ≡ face.reply) × (end.new ≡ face.end) × (total.new ≡ face.length)
        × (buf.new ≡ whole_buffer plan buf.old) }
{
    let mut whole = 0;
    let w = tail_write::rewrite_ape_tail(buf, *total, area, count);
    put_rewritten(w, &mut whole, end, total)
}

// What is found of that where power fails after `budget` writes, each byte being one, and the one behind the last byte setting the length: `whole` is 1
// where all were made, and 0 else; the first place that is written; and the length of the file. The same refusals.
#[unsafe(no_mangle)]
pub extern "C" fn zib_rewrite_within(
    buf: &mut [u8],
    total: &mut usize,
    area: &[u8],
    count: usize,
    budget: usize,
    whole: &mut u32,
    end: &mut usize,
) -> u32
    ensures { let plan = rewrite_plan buf.old total.old area.now count in
        let face = rewritten_face (rewrite_answer total.old budget plan) whole.old end.old total.old in
        (result ≡ face.reply) × (whole.new ≡ face.whole) × (end.new ≡ face.end) × (total.new ≡ face.length)
        × (buf.new ≡ rewrite_buffer budget plan buf.old) }
{
    let w = tail_write::rewrite_within(buf, *total, area, count, budget);
    put_rewritten(w, whole, end, total)
}
