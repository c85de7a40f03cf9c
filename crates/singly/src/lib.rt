// The conversion of crate lossy one part of the text after another: the definition as a program. Each function has the contract of the one
// of its name in lossy, which reads blocks, and `both_same` says that the two are the same on every input.
#![tactic(auto)]

ghost use Rattle.std.specs.Prelude.{◌≡◌, true, ◌≤◌, ◌+◌, length, option_map};
ghost use Rattle.lists.specs.Bytes.{same};
ghost use Rattle.lists.specs.Write.{over, splice};
ghost use Rattle.utf8.specs.Utf8.{Classes};
ghost use Rattle.lossy.specs.Lossy.{lossy};
ghost use Rattle.lossy.specs.Write.{bytes, within};
ghost use Rattle.singly.specs.Same.{left};

use utf8::Part;

// How many bytes the text has with U+FFFD in place of each ill-formed part, where that is at most `room`. With the table lent. No `for`: each turn
// goes on by the length of what stands there.
pub fn lossy_within(table: &[u8; 256], s: &[u8], room: usize) -> Option<usize>
    requires { Classes table.now }
    ensures { result ≡ option_map length (within room (lossy s.now)) }
{
    let mut at = 0;
    let mut size = 0;
    loop {
        match utf8::step_by(table, s, at) {
            Part::Good(n) => {
                if room - size < n {
                    return None;
                }
                size += n;
                at += n;
            }
            Part::Bad(n) => {
                if room - size < 3 {
                    return None;
                }
                size += 3;
                at += n;
            }
            Part::End => {
                return Some(size);
            }
        }
    }
}

// Writes the text, with U+FFFD in place of each ill-formed part, into `out` from `at`, and answers where it ends. With the table lent. No `for`, as
// above.
pub fn lossy_put(table: &[u8; 256], out: &mut [u8], at: usize, s: &[u8]) -> usize
    requires { (Classes table.now) × (at + length (lossy s.now) ≤ length out.old) }
    ensures { (result ≡ at + length (lossy s.now)) × (out.new ≡ splice out.old at (lossy s.now)) }
{
    let mut from = 0;
    let mut o = at;
    loop {
        match utf8::step_by(table, s, from) {
            Part::Good(n) => {
                let e = from + n;
                o = lists::put_part(out, o, s, from, e);
                from = e;
            }
            Part::Bad(n) => {
                o = lists::put(out, o, b"\xEF\xBF\xBD");
                from += n;
            }
            Part::End => {
                return o;
            }
        }
    }
}

// Writes the text, with U+FFFD in place of each ill-formed part, at the front of `out` where there is room; else nothing is written.
pub fn lossy_into(s: &[u8], out: &mut [u8]) -> Option<usize>
    ensures { let plan = within (length out.old) (lossy s.now) in
        (result ≡ option_map length plan) × (out.new ≡ over (bytes plan) out.old) }
{
    let table = utf8::table::CLASS;
    lossy_within(&table, s, out.len())?;
    Some(lossy_put(&table, out, 0, s))
}

// Runs both conversions, each into a buffer of its own, and says whether they answer and leave the same. Where the buffers start alike it
// always says yes: the conversion by blocks equals the single-byte one on every text and for every room.
pub fn both_same(s: &[u8], blocks: &mut [u8], singly: &mut [u8]) -> bool
    ensures { (blocks.old ≡ singly.old → result ≡ true) × (result ≡ same blocks.new singly.new)
        × (blocks.new ≡ left s.now blocks.old) × (singly.new ≡ left s.now singly.old) }
{
    let x = lossy::lossy_into(s, blocks);
    let y = lossy_into(s, singly);
    x == y && lists::equal(blocks, singly)
}
