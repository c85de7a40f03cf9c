// The faces of crates area_edit, area_drop, area_values and area_gains that edit an area.
//
// Each writes the new area to the front of `out`, how many items it has into `items`, and its length into `written`.
#![tactic(auto)]

ghost use Rattle.std.specs.Prelude.{◌≡◌, [], ◌∷◌, length};
ghost use Rattle.lists.specs.Write.{over};
ghost use Rattle.keys.specs.Keys.{undo_key, minmax_key, is_mp3gain_key, is_undone, is_replay_gain};
ghost use Rattle.values.specs.Undo.{format_undo};
ghost use Rattle.values.specs.Range.{format_range};
ghost use Rattle.area_edit.specs.Edits.{answer, bytes, set_plan};
ghost use Rattle.area_drop.specs.Drops.{remove_plan, drop_plan};
ghost use Rattle.area_gains.specs.Gains.{set_gains_plan};
ghost use Rattle.c_area.specs.AreaFace.{edited_face};

use items::Size;
use replies::Refusal;

// The reply to an edit, and its counts into the lent numbers.
pub fn put_edited(answer: Result<Size, Refusal>, items: &mut usize, written: &mut usize) -> u32
    ensures { let face = edited_face answer items.old written.old in
        (result ≡ face.reply) × (items.new ≡ face.items) × (written.new ≡ face.written) }
{
    match answer {
        Ok(size) => {
            *items = size.count;
            *written = size.length;
            0
        }
        Err(r) => replies::number(r),
    }
}

// The area with this value at the first item with this key, or with one more item. Refusals 12, 3, 4 and 5.
pub fn zib_set(
    area: &[u8],
    count: usize,
    key: &[u8],
    value: &[u8],
    out: &mut [u8],
    items: &mut usize,
    written: &mut usize,
) -> u32
    ensures { let plan = set_plan key.now value.now count area.now (length out.old) in
        let face = edited_face (answer plan) items.old written.old in
        (result ≡ face.reply) × (items.new ≡ face.items) × (written.new ≡ face.written)
        × (out.new ≡ over (bytes plan) out.old) }
{
    put_edited(area_edit::set(area, count, key, value, out), items, written)
}

// The area without the items that have this key. Refusals 12, 3 and 5.
pub fn zib_remove(
    area: &[u8],
    count: usize,
    key: &[u8],
    out: &mut [u8],
    items: &mut usize,
    written: &mut usize,
) -> u32
    ensures { let plan = remove_plan key.now count area.now (length out.old) in
        let face = edited_face (answer plan) items.old written.old in
        (result ≡ face.reply) × (items.new ≡ face.items) × (written.new ≡ face.written)
        × (out.new ≡ over (bytes plan) out.old) }
{
    put_edited(area_drop::remove(area, count, key, out), items, written)
}

// The area without REPLAYGAIN_KEYS. Refusals 12 and 5.
pub fn zib_remove_replaygain(
    area: &[u8],
    count: usize,
    out: &mut [u8],
    items: &mut usize,
    written: &mut usize,
) -> u32
    ensures { let plan = drop_plan is_replay_gain count area.now (length out.old) in
        let face = edited_face (answer plan) items.old written.old in
        (result ≡ face.reply) × (items.new ≡ face.items) × (written.new ≡ face.written)
        × (out.new ≡ over (bytes plan) out.old) }
{
    put_edited(
        area_drop::remove_replaygain(area, count, out),
        items,
        written,
    )
}

// The area without UNDONE_KEYS. Refusals 12 and 5.
pub fn zib_drop_undone(
    area: &[u8],
    count: usize,
    out: &mut [u8],
    items: &mut usize,
    written: &mut usize,
) -> u32
    ensures { let plan = drop_plan is_undone count area.now (length out.old) in
        let face = edited_face (answer plan) items.old written.old in
        (result ≡ face.reply) × (items.new ≡ face.items) × (written.new ≡ face.written)
        × (out.new ≡ over (bytes plan) out.old) }
{
    put_edited(area_drop::drop_undone(area, count, out), items, written)
}

// The area without the eight keys of mp3gain. Refusals 12 and 5.
pub fn zib_take_mp3gain(
    area: &[u8],
    count: usize,
    out: &mut [u8],
    items: &mut usize,
    written: &mut usize,
) -> u32
    ensures { let plan = drop_plan is_mp3gain_key count area.now (length out.old) in
        let face = edited_face (answer plan) items.old written.old in
        (result ≡ face.reply) × (items.new ≡ face.items) × (written.new ≡ face.written)
        × (out.new ≡ over (bytes plan) out.old) }
{
    put_edited(area_drop::take_mp3gain(area, count, out), items, written)
}

// The area with an undo text of these numbers and this flag. Refusals 12 and 5.
pub fn zib_set_undo_gain(
    area: &[u8],
    count: usize,
    left: i32,
    right: i32,
    wrap: bool,
    out: &mut [u8],
    items: &mut usize,
    written: &mut usize,
) -> u32
    ensures { let plan = set_plan undo_key (format_undo left right wrap) count area.now (length out.old) in
        let face = edited_face (answer plan) items.old written.old in
        (result ≡ face.reply) × (items.new ≡ face.items) × (written.new ≡ face.written)
        × (out.new ≡ over (bytes plan) out.old) }
{
    put_edited(
        area_values::set_undo_gain(area, count, left, right, wrap, out),
        items,
        written,
    )
}

// The area with a range text of these gains. Refusals 12 and 5.
pub fn zib_set_minmax(
    area: &[u8],
    count: usize,
    least: u8,
    greatest: u8,
    out: &mut [u8],
    items: &mut usize,
    written: &mut usize,
) -> u32
    ensures { let plan = set_plan minmax_key (format_range (record { least = least; greatest = greatest })) count area.now (length out.old) in
        let face = edited_face (answer plan) items.old written.old in
        (result ≡ face.reply) × (items.new ≡ face.items) × (written.new ≡ face.written)
        × (out.new ≡ over (bytes plan) out.old) }
{
    put_edited(
        area_values::set_minmax(area, count, least, greatest, out),
        items,
        written,
    )
}

// The area with each of the texts that is not empty at its REPLAYGAIN key. Refusals 12, 4 and 5.
pub fn zib_set_replaygain<'a>(
    area: &[u8],
    count: usize,
    track_gain: &'a [u8],
    track_peak: &'a [u8],
    album_gain: &'a [u8],
    album_peak: &'a [u8],
    algorithm: &'a [u8],
    out: &mut [u8],
    items: &mut usize,
    written: &mut usize,
) -> u32
    ensures { let texts = track_gain.now ∷ track_peak.now ∷ album_gain.now ∷ album_peak.now ∷ algorithm.now ∷ [] in
        let plan = set_gains_plan texts count area.now (length out.old) in
        let face = edited_face (answer plan) items.old written.old in
        (result ≡ face.reply) × (items.new ≡ face.items) × (written.new ≡ face.written)
        × (out.new ≡ over (bytes plan) out.old) }
{
    put_edited(
        area_gains::set_replaygain(
            area, count, track_gain, track_peak, album_gain, album_peak, algorithm, out,
        ),
        items,
        written,
    )
}
