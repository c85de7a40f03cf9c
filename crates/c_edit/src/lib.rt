// The faces of crates gate and edit: the editing gate, and set and remove on a file.
#![tactic(auto)]

ghost use Rattle.std.specs.Prelude.{◌≡◌, length};
ghost use Rattle.lists.specs.Write.{over};
ghost use Rattle.ape_write.specs.Answers.{written_answer, written_bytes};
ghost use Rattle.calls.specs.Calls.{set_plan, remove_plan};
ghost use Rattle.gate.specs.Gate.{gate_plan};
ghost use Rattle.c_ape.specs.ApeFace.{written_face};
ghost use Rattle.c_edit.specs.EditFace.{gate_face};

use replies::Refusal;

// Where the items of a file stand that is fit for editing, and how many there are: all three numbers are 0 where it has no tag. Refusals
// 1 and 8.
#[unsafe(no_mangle)]
pub extern "C" fn zib_gate(
    file: &[u8],
    start: &mut usize,
    end: &mut usize,
    count: &mut usize,
) -> u32
    ensures { let face = gate_face (gate_plan file.now) start.old end.old count.old in
        (result ≡ face.reply) × (start.new ≡ face.start) × (end.new ≡ face.end) × (count.new ≡ face.count) }
{
    if replies::FILE_LIMIT < file.len() {
        return replies::number(Refusal::FileTooLong);
    }
    match gate::gate(file) {
        Ok(place) => {
            *start = place.start;
            *end = place.end;
            *count = place.count;
            0
        }
        Err(r) => replies::number(r),
    }
}

// The file with this value at the first item with this key, or with one more item, written to the front of `out`, and its length into
// `written`. Refusals 1, 3, 4, 8, 6 and 5.
#[unsafe(no_mangle)]
pub extern "C" fn zib_set_ape_item(
    file: &[u8],
    key: &[u8],
    value: &[u8],
    out: &mut [u8],
    written: &mut usize,
) -> u32
    ensures { let plan = set_plan file.now key.now value.now (length out.old) in
        let face = written_face (written_answer plan) written.old in
        (result ≡ face.reply) × (written.new ≡ face.written) × (out.new ≡ over (written_bytes plan) out.old) }
{
    c_ape::put_written(edit::set_ape_item(file, key, value, out), written)
}

// The file without the items with this key, written to the front of `out`, and its length into `written`. Refusals 1, 3, 8, 6 and 5.
#[unsafe(no_mangle)]
pub extern "C" fn zib_remove_ape_item(
    file: &[u8],
    key: &[u8],
    out: &mut [u8],
    written: &mut usize,
) -> u32
    ensures { let plan = remove_plan file.now key.now (length out.old) in
        let face = written_face (written_answer plan) written.old in
        (result ≡ face.reply) × (written.new ≡ face.written) × (out.new ≡ over (written_bytes plan) out.old) }
{
    c_ape::put_written(edit::remove_ape_item(file, key, out), written)
}
