// The end of a file rewritten where it is: rewrite_ape_tail. Bytes are written from the audio end on, in rising order, and the length is set last.
#![tactic(auto)]

ghost use Rattle.std.specs.Prelude.{◌≡◌, true, not, ◌&&◌, cond, ◌++◌, ◌≤◌, ◌+◌, ◌-◌, max, length, take, ltb, eqb};
ghost use Rattle.lists.specs.Choice.{is_some};
ghost use Rattle.lists.specs.Write.{over, splice, part};
ghost use Rattle.items.specs.Items.{parse, items_in};
ghost use Rattle.ape.specs.Tag.{serialize};
ghost use Rattle.ape_write.specs.Answers.{tag_parts};
ghost use Rattle.tail_write.specs.Answers.{bare_of, place_in, room_plan, rewrite_plan, rewrite_answer, rewrite_buffer, whole_answer, whole_buffer};

use ape_replace::Cut;
use replies::Refusal;

// Where a file is rewritten: from `end` on, and what follows the new tag stands between `from` and `to`.
#[derive(Clone, Copy)]
struct Place {
    tagged: bool,
    end: usize,
    from: usize,
    to: usize,
}

// What is found after so many writes: all were made, and the length is set; or they came to their end before that, and the file has this length.
// `end` is the first place that is written, or the file's length where nothing is.
#[derive(Clone, Copy)]
pub enum Rewritten {
    Done { end: usize, length: usize },
    Stopped { end: usize, length: usize },
}

// The place in a file without a tag that is cut so.
fn bare(cut: Cut) -> Place
    ensures { result ≡ bare_of cut }
{
    Place {
        tagged: false,
        end: cut.front,
        from: cut.from,
        to: cut.to,
    }
}

// Where a file is rewritten. An ID3v1 block before its tag stays where it is.
fn place_in(file: &[u8]) -> Place
    ensures { result ≡ place_in file.now }
{
    let Some(footer) = ape::find_footer(file) else {
        return bare(ape_replace::cut_audio(file, file.len()));
    };
    let Some(start) = frame::ape_tag_start(file, footer) else {
        return bare(ape_replace::cut_audio(file, file.len()));
    };
    Place {
        tagged: true,
        end: start,
        from: footer + 32,
        to: file.len(),
    }
}

// Writes the first `budget` bytes of `src`, or all where it has fewer, to the front of `out`, one after another, and answers what is left of the
// budget, the number of writes that may still be made. No other function here writes to the file.
fn put_within(out: &mut [u8], src: &[u8], budget: usize) -> usize
    requires { length src.now ≤ length out.old }
    ensures { (result ≡ budget - length src.now)
        × (out.new ≡ over (take budget src.now) out.old) }
{
    if budget < src.len() {
        lists::put_rising(out, 0, &src[0..budget]);
        return 0;
    }
    lists::put_rising(out, 0, src);
    budget - src.len()
}

// Writes the first `budget` bytes of a header, the items and a footer, each into the rest of `out`, and answers what is left of the budget.
fn put_parts_within(out: &mut [u8], area: &[u8], count: u32, budget: usize) -> usize
    requires { (length area.now ≤ 16777216) × (length area.now + 64 ≤ length out.old) }
    ensures { (result ≡ budget - (length area.now + 64))
        × (out.new ≡ over (take budget (tag_parts area.now count)) out.old) }
{
    let n = area.len();
    let size = (n + 32) as u32;
    let mut block = [0u8; 32];
    ape_write::put_block(&mut block, size, count, ape_write::HEADER_FLAGS);
    let a = put_within(out, &block, budget);
    let b = put_within(&mut out[32..], area, a);
    ape_write::put_block(&mut block, size, count, ape_write::FOOTER_FLAGS);
    let at = 32 + n;
    put_within(&mut out[at..], &block, b)
}

// The same of the tag of a well-formed area: nothing for no items.
fn put_tag_within(out: &mut [u8], area: &[u8], count: usize, budget: usize) -> usize
    requires { (is_some (parse count area.now) ≡ true) × (length (serialize (items_in count area.now)) ≤ 16777216)
        × (length (serialize (items_in count area.now)) ≤ length out.old) }
    ensures { let tag = serialize (items_in count area.now) in
        (result ≡ budget - length tag) × (out.new ≡ over (take budget tag) out.old) }
{
    if count == 0 {
        return budget;
    }
    put_parts_within(out, area, count as u32, budget)
}

// Writes the first `budget` bytes of a new tail from the audio end on: the tag of these items, and what follows it, each into the rest of `buf`. What
// follows is taken aside before the first write, since a longer tag runs over it.
fn put_tail(buf: &mut [u8], place: Place, area: &[u8], count: usize, budget: usize)
    requires { (place.from ≤ place.to) × (place.to ≤ length buf.old) × (place.to ≤ place.from + 128) × (is_some (parse count area.now) ≡ true)
        × (place.end + length (serialize (items_in count area.now)) + (place.to - place.from) ≤ 16777216)
        × (place.end + length (serialize (items_in count area.now)) + (place.to - place.from) ≤ length buf.old) }
    ensures { buf.new ≡ splice buf.old place.end
        (take budget (serialize (items_in count area.now) ++ part place.from place.to buf.old)) }
{
    let end = place.end;
    let from = place.from;
    let to = place.to;
    let mut kept = [0u8; 128];
    let n = lists::put(&mut kept, 0, &buf[from..to]);
    let left = put_tag_within(&mut buf[end..], area, count, budget);
    let at = end + ape_write::tag_length(area.len(), count);
    put_within(&mut buf[at..], &kept[0..n], left);
}

// Whether nothing is written: a file without a tag, and no items.
fn unwritten(tagged: bool, count: usize) -> bool
    ensures { result ≡ (not tagged && eqb count 0) }
{
    if tagged {
        return false;
    }
    count == 0
}

// How long the file is that is rewritten there with this tag: what precedes it, the tag, and what follows.
fn new_length(place: Place, tag: usize) -> usize
    requires { (place.end ≤ 16777216) × (place.from ≤ place.to) × (place.to ≤ 16777216) × (tag ≤ 9223372036854775871) }
    ensures { result ≡ place.end + tag + (place.to - place.from) }
{
    place.end + tag + (place.to - place.from)
}

// What is found after `budget` writes to a file of `total` bytes that is written from `end` to `new`.
fn found_then(total: usize, end: usize, new: usize, budget: usize) -> Rewritten
    requires { (end ≤ new) × (new ≤ 16777216) }
    ensures { result ≡ cond (ltb (new - end) budget) (Rewritten.Done end new) (Rewritten.Stopped end (max total (end + budget))) }
{
    if new - end < budget {
        return Rewritten::Done { end, length: new };
    }
    Rewritten::Stopped {
        end,
        length: total.max(end + budget),
    }
}

// The end of the file of `total` bytes at the front of `buf` rewritten by the items of a well-formed area, where there is room for it: refusal 5.
fn rewrite_items(
    buf: &mut [u8],
    total: usize,
    area: &[u8],
    count: usize,
    budget: usize,
) -> Result<Rewritten, Refusal>
    requires { (total ≤ length buf.old) × (total ≤ 16777216) × (is_some (parse count area.now) ≡ true) }
    ensures { let plan = room_plan (take total buf.old) (items_in count area.now) (length buf.old) in
        (result ≡ rewrite_answer total budget plan) × (buf.new ≡ rewrite_buffer budget plan buf.old) }
{
    let place = place_in(&buf[0..total]);
    if unwritten(place.tagged, count) {
        return Ok(found_then(total, total, total, budget));
    }
    let new = new_length(place, ape_write::tag_length(area.len(), count));
    if buf.len() < new {
        return Err(Refusal::NoRoom);
    }
    if replies::FILE_LIMIT < new {
        return Err(Refusal::NoRoom);
    }
    put_tail(buf, place, area, count, budget);
    Ok(found_then(total, place.end, new, budget))
}

// What is found where power fails after `budget` writes: the end of the file of `total` bytes at the front of `buf` is rewritten by the items of the area,
// whatever keys they have; each byte is one write, and the one behind the last byte sets the length. Refusals 5 for a length past the buffer, then 1, 12 and 5.
pub fn rewrite_within(
    buf: &mut [u8],
    total: usize,
    area: &[u8],
    count: usize,
    budget: usize,
) -> Result<Rewritten, Refusal>
    ensures { let plan = rewrite_plan buf.old total area.now count in
        (result ≡ rewrite_answer total budget plan) × (buf.new ≡ rewrite_buffer budget plan buf.old) }
{
    if buf.len() < total {
        return Err(Refusal::NoRoom);
    }
    if replies::FILE_LIMIT < total {
        return Err(Refusal::FileTooLong);
    }
    if !items::well_formed(area, count) {
        return Err(Refusal::MalformedArea);
    }
    rewrite_items(buf, total, area, count, budget)
}

// More writes than any file takes.
const UNLIMITED: usize = 0xFFFF_FFFF_FFFF_FFFF;

// The same with no limit on the writes: the first place that was written, and the new length. Refusals 5 for a length past the buffer, then 1, 12 and 5.
pub fn rewrite_ape_tail(
    buf: &mut [u8],
    total: usize,
    area: &[u8],
    count: usize,
) -> Result<Rewritten, Refusal>
    ensures { let plan = rewrite_plan buf.old total area.now count in
        (result ≡ whole_answer plan) × (buf.new ≡ whole_buffer plan buf.old) }
{
    rewrite_within(buf, total, area, count, UNLIMITED)
}
