// The values of mp3gain in an item area: the undo steps and the range of gains, got and set.
#![tactic(auto)]

ghost use Rattle.std.specs.Prelude.{◌≡◌, length};
ghost use Rattle.lists.specs.Write.{over};
ghost use Rattle.keys.specs.Keys.{undo_key, minmax_key};
ghost use Rattle.values.specs.Undo.{format_undo};
ghost use Rattle.values.specs.Range.{format_range};
ghost use Rattle.area_edit.specs.Edits.{answer, bytes, set_plan};
ghost use Rattle.area_values.specs.Undo.{undo_gain_of};

use items::Size;
use replies::Refusal;

// The left number of the first undo item, whether or not there is a second one.
pub fn get_undo_gain(area: &[u8], count: usize) -> Result<Option<i32>, Refusal>
    ensures { result ≡ undo_gain_of area.now count }
{
    let Some(f) = items::find(area, count, &keys::TAG_MP3GAIN_UNDO)? else {
        return Ok(None);
    };
    let text = items::part(area, f);
    Ok(Some(values::parse_undo_values(text).left))
}

// The area with an undo text of these numbers and this flag.
pub fn set_undo_gain(
    area: &[u8],
    count: usize,
    left: i32,
    right: i32,
    wrap: bool,
    out: &mut [u8],
) -> Result<Size, Refusal>
    ensures { let plan = set_plan undo_key (format_undo left right wrap) count area.now (length out.old) in
        (result ≡ answer plan) × (out.new ≡ over (bytes plan) out.old) }
{
    let text = values::format_undo_value(left, right, wrap);
    area_edit::set(area, count, &keys::TAG_MP3GAIN_UNDO, text.as_slice(), out)
}

// The area with a range text of these gains.
pub fn set_minmax(
    area: &[u8],
    count: usize,
    least: u8,
    greatest: u8,
    out: &mut [u8],
) -> Result<Size, Refusal>
    ensures { let plan = set_plan minmax_key (format_range (record { least = least; greatest = greatest })) count area.now (length out.old) in
        (result ≡ answer plan) × (out.new ≡ over (bytes plan) out.old) }
{
    let text = values::format_minmax(least, greatest);
    area_edit::set(area, count, &keys::TAG_MP3GAIN_MINMAX, text.as_slice(), out)
}
