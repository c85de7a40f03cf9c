// The faces of crate values, and of the steps of crate decibels.
#![tactic(auto)]

ghost use Rattle.std.specs.Prelude.{◌≡◌};
ghost use Rattle.values.specs.Undo.{parse_undo, undo_wraps, format_undo, accumulated};
ghost use Rattle.values.specs.Range.{format_range};
ghost use Rattle.values.specs.Stored.{range_wraps_out, shift_stored};
ghost use Rattle.decibels.specs.Gain.{steps_to_db};
ghost use Rattle.c_values.specs.ValuesFace.{flag, text_face, shift_face};

use frame::GainSteps;
use replies::Refusal;

// Writes a text at the front of `out`, and its length into `written`. Refusal 5.
fn put_text(text: &[u8], out: &mut [u8], written: &mut usize) -> u32
    ensures { let face = text_face text.now out.old written.old in
        (result ≡ face.reply) × (written.new ≡ face.written) × (out.new ≡ face.out) }
{
    if out.len() < text.len() {
        return replies::number(Refusal::NoRoom);
    }
    *written = lists::put(out, 0, text);
    0
}

// The two numbers of an undo text, and whether it has the flag W. A missing text is lent as an empty one.
#[unsafe(no_mangle)]
pub extern "C" fn zib_parse_undo(
    text: &[u8],
    left: &mut i32,
    right: &mut i32,
    wrap: &mut u32,
) -> u32
    ensures { (result ≡ 0) × (left.new ≡ (parse_undo text.now).left) × (right.new ≡ (parse_undo text.now).right)
        × (wrap.new ≡ flag (undo_wraps text.now)) }
{
    let undo = values::parse_undo_values(text);
    *left = undo.left;
    *right = undo.right;
    *wrap = u32::from(values::parse_undo_wrap(text));
    0
}

// The undo text of two numbers and a flag. Refusal 5.
#[unsafe(no_mangle)]
pub extern "C" fn zib_format_undo_value(
    left: i32,
    right: i32,
    wrap: bool,
    out: &mut [u8],
    written: &mut usize,
) -> u32
    ensures { let face = text_face (format_undo left right wrap) out.old written.old in
        (result ≡ face.reply) × (written.new ≡ face.written) × (out.new ≡ face.out) }
{
    let text = values::format_undo_value(left, right, wrap);
    put_text(text.as_slice(), out, written)
}

// The undo numbers after a further apply.
#[unsafe(no_mangle)]
pub extern "C" fn zib_accumulate_undo(
    text: &[u8],
    left: i32,
    right: i32,
    newleft: &mut i32,
    newright: &mut i32,
) -> u32
    ensures { (result ≡ 0) × (newleft.new ≡ (accumulated text.now left right).left)
        × (newright.new ≡ (accumulated text.now left right).right) }
{
    let undo = values::accumulate_undo(text, GainSteps(left), GainSteps(right));
    *newleft = undo.left;
    *newright = undo.right;
    0
}

// The text of a range. Refusal 5.
#[unsafe(no_mangle)]
pub extern "C" fn zib_format_minmax(
    least: u8,
    greatest: u8,
    out: &mut [u8],
    written: &mut usize,
) -> u32
    ensures { let text = format_range (record { least = least; greatest = greatest }) in
        let face = text_face text out.old written.old in
        (result ≡ face.reply) × (written.new ≡ face.written) × (out.new ≡ face.out) }
{
    let text = values::format_minmax(least, greatest);
    put_text(text.as_slice(), out, written)
}

// Whether an item is a range of which a number leaves 0..255.
#[unsafe(no_mangle)]
pub extern "C" fn zib_range_wraps_out(key: &[u8], value: &[u8], steps: i32) -> bool
    ensures { result ≡ range_wraps_out key.now value.now steps }
{
    values::range_wraps_out(key, value, GainSteps(steps))
}

// Steps as decibels, exactly: `minus` is 1 below zero, `millionths` are whole millionths of a decibel, and `rest` is what is left over, in
// units of 10^-15 dB.
#[unsafe(no_mangle)]
pub extern "C" fn zib_steps_to_db(
    steps: i32,
    minus: &mut u32,
    millionths: &mut u64,
    rest: &mut u64,
) -> u32
    ensures { (result ≡ 0) × (minus.new ≡ flag (steps_to_db steps).0) × (millionths.new ≡ (steps_to_db steps).1)
        × (rest.new ≡ (steps_to_db steps).2) }
{
    let db = decibels::steps_to_db(GainSteps(steps));
    *minus = u32::from(db.0);
    *millionths = db.1;
    *rest = db.2;
    0
}

// A stored value after so many steps: `moved` is 1 and the new text stands in `out`, or it is 0 and the value stays as found. Refusal 5.
#[unsafe(no_mangle)]
pub extern "C" fn zib_shift_stored_value(
    key: &[u8],
    value: &[u8],
    steps: i32,
    moved: &mut u32,
    out: &mut [u8],
    written: &mut usize,
) -> u32
    ensures { let shifted = shift_stored key.now value.now steps in
        let face = shift_face shifted out.old moved.old written.old in
        (result ≡ face.reply) × (moved.new ≡ face.moved) × (written.new ≡ face.written) × (out.new ≡ face.out) }
{
    let Some(text) = values::shift_stored_value(key, value, GainSteps(steps)) else {
        *moved = 0;
        *written = 0;
        return 0;
    };
    let reply = put_text(text.as_slice(), out, written);
    if reply == 0 {
        *moved = 1;
    }
    reply
}
