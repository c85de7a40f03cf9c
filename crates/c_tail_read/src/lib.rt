// The faces of crate tail_read: the two stages.
#![tactic(auto)]

ghost use Rattle.std.specs.Prelude.{◌≡◌, length};
ghost use Rattle.lists.specs.Write.{over};
ghost use Rattle.ape.specs.Answers.{read_answer, read_bytes};
ghost use Rattle.tail_read.specs.Answers.{needs_plan, needs_answer, end_plan};
ghost use Rattle.c_ape.specs.ApeFace.{read_face, written_face};

// How many final bytes of a file of `total` bytes reading needs, by its last 160 bytes, or all where it has fewer. Refusal 1.
#[unsafe(no_mangle)]
pub extern "C" fn zib_bytes_needed(probe: &[u8], total: usize, needed: &mut usize) -> u32
    ensures { let face = written_face (needs_answer (needs_plan probe.now total)) needed.old in
        (result ≡ face.reply) × (needed.new ≡ face.written) }
{
    c_ape::put_written(tail_read::bytes_needed(probe, total), needed)
}

// Reads the tag of a file of `total` bytes, of which so many final bytes are lent, into `area`: `there` is 1, with the count of items and the length of their
// area, or all three are 0 for no tag. Refusals 1 and 5.
#[unsafe(no_mangle)]
pub extern "C" fn zib_read_end(
    end: &[u8],
    total: usize,
    area: &mut [u8],
    there: &mut u32,
    count: &mut usize,
    written: &mut usize,
) -> u32
    ensures { let plan = end_plan end.now total (length area.old) in
        let face = read_face (read_answer plan) there.old count.old written.old in
        (result ≡ face.reply) × (there.new ≡ face.there) × (count.new ≡ face.count) × (written.new ≡ face.written)
        × (area.new ≡ over (read_bytes plan) area.old) }
{
    c_ape::put_read(tail_read::read_end(end, total, area), there, count, written)
}
