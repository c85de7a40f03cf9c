// The faces of crates ape, ape_write and ape_replace.
#![tactic(auto)]

ghost use Rattle.std.specs.Prelude.{◌≡◌, length};
ghost use Rattle.lists.specs.Write.{over};
ghost use Rattle.ape.specs.Answers.{footer_plan, footer_answer, read_plan, read_answer, read_bytes};
ghost use Rattle.ape_write.specs.Answers.{serialize_plan, written_answer, written_bytes};
ghost use Rattle.ape_replace.specs.Answers.{split_plan, tag_plan, replace_plan};
ghost use Rattle.c_ape.specs.ApeFace.{footer_face, read_face, written_face, split_face};

use ape_replace::Cut;
use items::Size;
use replies::Refusal;

// Where the footer of the file's tag stands: `there` is 1 and `footer` its place, or both are 0. Refusal 1.
pub fn zib_find_ape_footer(file: &[u8], there: &mut u32, footer: &mut usize) -> u32
    ensures { let found = footer_answer (footer_plan file.now) in
        let face = footer_face found there.old footer.old in
        (result ≡ face.reply) × (there.new ≡ face.there) × (footer.new ≡ face.footer) }
{
    match ape::find_ape_footer(file) {
        Ok(Some(at)) => {
            *there = 1;
            *footer = at;
            0
        }
        Ok(None) => {
            *there = 0;
            *footer = 0;
            0
        }
        Err(r) => replies::number(r),
    }
}

// The reply to a reading, and into the lent numbers whether a tag is there, the count of its items and the length of their area.
pub fn put_read(
    read: Result<Option<Size>, Refusal>,
    there: &mut u32,
    count: &mut usize,
    written: &mut usize,
) -> u32
    ensures { let face = read_face read there.old count.old written.old in
        (result ≡ face.reply) × (there.new ≡ face.there) × (count.new ≡ face.count) × (written.new ≡ face.written) }
{
    match read {
        Ok(None) => {
            *there = 0;
            *count = 0;
            *written = 0;
            0
        }
        Ok(Some(size)) => {
            *there = 1;
            *count = size.count;
            *written = size.length;
            0
        }
        Err(r) => replies::number(r),
    }
}

// Reads the file's tag into `area`: `there` is 1, with the count of items and the length of their area, or all three are 0 for no tag.
// Refusals 1 and 5.
pub fn zib_read_ape_tag(
    file: &[u8],
    area: &mut [u8],
    there: &mut u32,
    count: &mut usize,
    written: &mut usize,
) -> u32
    ensures { let plan = read_plan file.now (length area.old) in
        let face = read_face (read_answer plan) there.old count.old written.old in
        (result ≡ face.reply) × (there.new ≡ face.there) × (count.new ≡ face.count) × (written.new ≡ face.written)
        × (area.new ≡ over (read_bytes plan) area.old) }
{
    put_read(ape::read_ape_tag(file, area), there, count, written)
}

// The reply to a call that writes, and how many bytes it wrote into the lent number.
pub fn put_written(w: Result<usize, Refusal>, written: &mut usize) -> u32
    ensures { let face = written_face w written.old in (result ≡ face.reply) × (written.new ≡ face.written) }
{
    match w {
        Ok(n) => {
            *written = n;
            0
        }
        Err(r) => replies::number(r),
    }
}

// The tag of the `count` items of `area`, written to the front of `out`, and its length into `written`. Refusals 12 and 5.
pub fn zib_serialize_ape_tag(area: &[u8], count: usize, out: &mut [u8], written: &mut usize) -> u32
    ensures { let plan = serialize_plan area.now count (length out.old) in
        let face = written_face (written_answer plan) written.old in
        (result ≡ face.reply) × (written.new ≡ face.written) × (out.new ≡ over (written_bytes plan) out.old) }
{
    put_written(ape_write::serialize_ape_tag(area, count, out), written)
}

// Hands out where a file is cut.
fn hand_out(cut: Cut, front: &mut usize, from: &mut usize, to: &mut usize)
    ensures { (front.new ≡ cut.front) × (from.new ≡ cut.from) × (to.new ≡ cut.to) }
{
    *front = cut.front;
    *from = cut.from;
    *to = cut.to;
}

// Where the file is cut: what precedes its tag ends at `front`, and what follows it stands between `from` and `to`. Without a tag, the
// same of the place where one would be put. Refusal 1.
pub fn zib_split_ape_tag(file: &[u8], front: &mut usize, from: &mut usize, to: &mut usize) -> u32
    ensures { let face = split_face (split_plan file.now) front.old from.old to.old in
        (result ≡ face.reply) × (front.new ≡ face.front) × (from.new ≡ face.from) × (to.new ≡ face.to) }
{
    if replies::FILE_LIMIT < file.len() {
        return replies::number(Refusal::FileTooLong);
    }
    hand_out(ape_replace::split_ape_tag(file), front, from, to);
    0
}

// `zib_split_ape_tag`, by the name that says what it is for: the two parts of the file that stay when its tag is replaced. Refusal 1.
pub fn zib_ape_tag_parts(file: &[u8], front: &mut usize, from: &mut usize, to: &mut usize) -> u32
    ensures { let face = split_face (split_plan file.now) front.old from.old to.old in
        (result ≡ face.reply) × (front.new ≡ face.front) × (from.new ≡ face.from) × (to.new ≡ face.to) }
{
    if replies::FILE_LIMIT < file.len() {
        return replies::number(Refusal::FileTooLong);
    }
    hand_out(ape_replace::ape_tag_parts(file), front, from, to);
    0
}

// Where the file is cut around its tag alone: the audio before it ends at `front`, and what stands behind its footer lies between `from` and `to`.
// Without a tag all is audio. Refusal 1.
pub fn zib_cut_ape_tag(file: &[u8], front: &mut usize, from: &mut usize, to: &mut usize) -> u32
    ensures { let face = split_face (tag_plan file.now) front.old from.old to.old in
        (result ≡ face.reply) × (front.new ≡ face.front) × (from.new ≡ face.from) × (to.new ≡ face.to) }
{
    if replies::FILE_LIMIT < file.len() {
        return replies::number(Refusal::FileTooLong);
    }
    hand_out(ape_replace::cut_ape_tag(file), front, from, to);
    0
}

// The file with its tag replaced by the `count` items of `area`, written to the front of `out`, and its length into `written`.
// Refusals 1, 12 and 5.
pub fn zib_replace_ape_tag(
    file: &[u8],
    area: &[u8],
    count: usize,
    out: &mut [u8],
    written: &mut usize,
) -> u32
    ensures { let plan = replace_plan file.now area.now count (length out.old) in
        let face = written_face (written_answer plan) written.old in
        (result ≡ face.reply) × (written.new ≡ face.written) × (out.new ≡ over (written_bytes plan) out.old) }
{
    put_written(
        ape_replace::replace_ape_tag(file, area, count, out),
        written,
    )
}
