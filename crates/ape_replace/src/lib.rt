// Where a file is cut, and the file with its tag replaced: split_ape_tag, cut_ape_tag and replace_ape_tag.
#![tactic(auto)]

ghost use Rattle.std.specs.Prelude.{◌≡◌, true, ◌≤◌, ◌+◌, ◌-◌, length};
ghost use Rattle.lists.specs.Choice.{is_some};
ghost use Rattle.lists.specs.Write.{over};
ghost use Rattle.items.specs.Items.{parse, items_in};
ghost use Rattle.ape.specs.Tag.{split, replaced};
ghost use Rattle.ape_write.specs.Answers.{written_answer, written_bytes};
ghost use Rattle.ape_replace.specs.Answers.{room_plan, replace_plan, tag_cut, audio_cut, cut_of, Cuts};

use replies::Refusal;

// Where a file is cut: what precedes its tag ends at `front`, and what follows it stands between `from` and `to`.
#[derive(Clone, Copy)]
pub struct Cut {
    pub front: usize,
    pub from: usize,
    pub to: usize,
}

// The audio that ends at `end`, with nothing behind it: an ID3v1 block at its end moves behind the tag.
pub fn cut_audio(file: &[u8], end: usize) -> Cut
    requires { end ≤ length file.now }
    ensures { result ≡ audio_cut file.now end }
{
    if frame::ends_with_id3v1(&file[0..end]) {
        let front = end - 128;
        return Cut {
            front,
            from: front,
            to: end,
        };
    }
    Cut {
        front: end,
        from: end,
        to: end,
    }
}

// Where a file is cut: around its tag, or where one would be put.
pub fn split_ape_tag(file: &[u8]) -> Cut
    ensures { result ≡ cut_of file.now }
{
    let Some(footer) = ape::find_footer(file) else {
        return cut_audio(file, file.len());
    };
    let Some(start) = frame::ape_tag_start(file, footer) else {
        return cut_audio(file, file.len());
    };
    let rest = footer + 32;
    if rest < file.len() {
        return Cut {
            front: start,
            from: rest,
            to: file.len(),
        };
    }
    cut_audio(file, start)
}

// Where a file is cut around its tag alone: the audio before it, and what stands behind its footer. Without a tag all is audio.
pub fn cut_ape_tag(file: &[u8]) -> Cut
    ensures { result ≡ tag_cut file.now }
{
    let n = file.len();
    let Some(footer) = ape::find_footer(file) else {
        return Cut {
            front: n,
            from: n,
            to: n,
        };
    };
    let Some(before) = frame::ape_tag_start(file, footer) else {
        return Cut {
            front: n,
            from: n,
            to: n,
        };
    };
    Cut {
        front: before,
        from: footer + 32,
        to: n,
    }
}

// The two parts of a file that stay when its tag is replaced: `split_ape_tag`, by the name that says what it is for.
pub fn ape_tag_parts(file: &[u8]) -> Cut
    ensures { result ≡ cut_of file.now }
{
    split_ape_tag(file)
}

// How long the file is that has this tag in place of its own: what precedes it, the tag, and what follows.
pub fn file_length(cut: Cut, tag: usize) -> usize
    requires { (cut.front ≤ 16777216) × (cut.from ≤ cut.to) × (cut.to ≤ 16777216) × (tag ≤ 9223372036854775871) }
    ensures { result ≡ cut.front + tag + (cut.to - cut.from) }
{
    cut.front + tag + (cut.to - cut.from)
}

// Writes the file with the tag of this area's items to the front of `out`, each part into the rest of it, and answers its length.
pub fn put_file(file: &[u8], cut: Cut, area: &[u8], count: usize, out: &mut [u8]) -> usize
    requires { (Cuts (split file.now) file.now cut.front cut.from cut.to) × (is_some (parse count area.now) ≡ true)
        × (length (replaced file.now (items_in count area.now)) ≤ 16777216)
        × (length (replaced file.now (items_in count area.now)) ≤ length out.old) }
    ensures { let new = replaced file.now (items_in count area.now) in
        (result ≡ length new) × (out.new ≡ over new out.old) }
{
    let front = cut.front;
    let from = cut.from;
    let to = cut.to;
    let a = lists::put_long_part(out, 0, file, 0, front);
    let n = ape_write::put_tag(&mut out[a..], area, count);
    let b = a + n;
    let m = lists::put_part(&mut out[b..], 0, file, from, to);
    b + m
}

// The file with its tag replaced by the items of a well-formed area, where there is room for it: refusal 5.
pub fn replace_items(
    file: &[u8],
    area: &[u8],
    count: usize,
    out: &mut [u8],
) -> Result<usize, Refusal>
    requires { (length file.now ≤ 16777216) × (is_some (parse count area.now) ≡ true) }
    ensures { let plan = room_plan file.now (items_in count area.now) (length out.old) in
        (result ≡ written_answer plan) × (out.new ≡ over (written_bytes plan) out.old) }
{
    let cut = split_ape_tag(file);
    let n = file_length(cut, ape_write::tag_length(area.len(), count));
    if out.len() < n {
        return Err(Refusal::NoRoom);
    }
    if replies::FILE_LIMIT < n {
        return Err(Refusal::NoRoom);
    }
    Ok(put_file(file, cut, area, count, out))
}

// The file with its tag replaced by the items of the area: refusals 1, 12 and 5.
pub fn replace_ape_tag(
    file: &[u8],
    area: &[u8],
    count: usize,
    out: &mut [u8],
) -> Result<usize, Refusal>
    ensures { let plan = replace_plan file.now area.now count (length out.old) in
        (result ≡ written_answer plan) × (out.new ≡ over (written_bytes plan) out.old) }
{
    if replies::FILE_LIMIT < file.len() {
        return Err(Refusal::FileTooLong);
    }
    if !items::well_formed(area, count) {
        return Err(Refusal::MalformedArea);
    }
    replace_items(file, area, count, out)
}
