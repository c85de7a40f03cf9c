// Only the end of a file read: how many bytes of it reading needs, and those bytes read. After read_ape_tag_from_file.
#![tactic(auto)]

ghost use Rattle.std.specs.Prelude.{◌≡◌, min, max, length};
ghost use Rattle.lists.specs.Write.{over};
ghost use Rattle.ape.specs.Answers.{read_plan, read_answer, read_bytes};
ghost use Rattle.tail_read.specs.Needed.{needed};
ghost use Rattle.tail_read.specs.Answers.{needs_plan, needs_answer, end_plan};

use items::Size;
use replies::Refusal;

// How many bytes a probe has where the file has as many: a footer and an ID3v1 block.
const PROBE: usize = 160;

// How many final bytes of a file of `total` bytes reading needs, by its last 160 bytes or fewer.
fn number_needed(probe: &[u8], total: usize) -> usize
    ensures { result ≡ needed probe.now total }
{
    let Some(footer) = ape::find_footer(probe) else {
        return probe.len();
    };
    let size = frame::read_u32_le(probe, footer + 12) as usize;
    total.min(probe.len().max(size + 32 + (probe.len() - footer)))
}

// The first stage, on the last 160 bytes or fewer of a file of `total` bytes: how many final bytes the second stage takes. Refusal 1.
pub fn bytes_needed(probe: &[u8], total: usize) -> Result<usize, Refusal>
    ensures { result ≡ needs_answer (needs_plan probe.now total) }
{
    if replies::FILE_LIMIT < total {
        return Err(Refusal::FileTooLong);
    }
    Ok(number_needed(probe, total))
}

// The second stage, on that many final bytes of a file of `total` bytes: its tag read into `area`. Refusals 1 and 5.
pub fn read_end(end: &[u8], total: usize, area: &mut [u8]) -> Result<Option<Size>, Refusal>
    ensures { let plan = end_plan end.now total (length area.old) in
        (result ≡ read_answer plan) × (area.new ≡ over (read_bytes plan) area.old) }
{
    if replies::FILE_LIMIT < total {
        return Err(Refusal::FileTooLong);
    }
    ape::read_ape_tag(end, area)
}

// Both stages on a lent file, of which only the end is looked at: the same as `ape::read_ape_tag`. Refusals 1 and 5.
pub fn read_from_end(file: &[u8], area: &mut [u8]) -> Result<Option<Size>, Refusal>
    ensures { let plan = read_plan file.now (length area.old) in
        (result ≡ read_answer plan) × (area.new ≡ over (read_bytes plan) area.old) }
{
    let n = file.len();
    let probe = n - n.min(PROBE);
    let k = bytes_needed(&file[probe..], n)?;
    let start = n - n.min(k);
    read_end(&file[start..], n, area)
}
