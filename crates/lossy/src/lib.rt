// A text with U+FFFD in place of each ill-formed part: its size, and the text written.
#![tactic(auto)]

ghost use Rattle.std.specs.Prelude.{◌≡◌, ◌≤◌, ◌+◌, length, option_map};
ghost use Rattle.lists.specs.Write.{over, splice};
ghost use Rattle.utf8.specs.Utf8.{Classes};
ghost use Rattle.lossy.specs.Lossy.{lossy};
ghost use Rattle.lossy.specs.Write.{bytes, within};

// How many bytes the text has with U+FFFD in place of each ill-formed part, where that is at most `room`. With the table lent. No `for`: each turn
// goes on by the length of what stands there.
pub fn lossy_within(table: &[u8; 256], s: &[u8], room: usize) -> Option<usize>
    requires { Classes table.now }
    ensures { result ≡ option_map length (within room (lossy s.now)) }
{
    let mut at = 0;
    let mut size = 0;
    loop {
        let r = utf8::run_from(table, s, at);
        let n = r.end - at;
        if room - size < n {
            return None;
        }
        size += n;
        if r.bad == 0 {
            return Some(size);
        }
        if room - size < 3 {
            return None;
        }
        size += 3;
        at = r.end + r.bad;
    }
}

// How many bytes the text has with U+FFFD in place of each ill-formed part, where that is at most `room`.
pub fn lossy_size(s: &[u8], room: usize) -> Option<usize>
    ensures { result ≡ option_map length (within room (lossy s.now)) }
{
    let table = utf8::table::CLASS;
    lossy_within(&table, s, room)
}

// Writes the text, with U+FFFD in place of each ill-formed part, into `out` from `at`, and answers where it ends. With the table lent.
// What stands before an ill-formed part is mostly short, and so is U+FFFD: both are copied faster byte by byte. No `for`, as above.
pub fn lossy_put(table: &[u8; 256], out: &mut [u8], at: usize, s: &[u8]) -> usize
    requires { (Classes table.now) × (at + length (lossy s.now) ≤ length out.old) }
    ensures { (result ≡ at + length (lossy s.now)) × (out.new ≡ splice out.old at (lossy s.now)) }
{
    let mut from = 0;
    let mut o = at;
    loop {
        let r = utf8::run_from(table, s, from);
        if r.bad == 0 {
            return lists::put_part(out, o, s, from, r.end);
        }
        let p = lists::put_rising(out, o, &s[from..r.end]);
        o = lists::put_rising(out, p, b"\xEF\xBF\xBD");
        from = r.end + r.bad;
    }
}

// Writes the text, with U+FFFD in place of each ill-formed part, at the front of `out` where there is room; else nothing is written.
// What is written is at least as long as `s`, at most three times as long, and `s` itself where that is UTF-8.
pub fn lossy_into(s: &[u8], out: &mut [u8]) -> Option<usize>
    ensures { let plan = within (length out.old) (lossy s.now) in
        (result ≡ option_map length plan) × (out.new ≡ over (bytes plan) out.old) }
{
    if out.len() < s.len() {
        return None;
    }
    let table = utf8::table::CLASS;
    if s.len() <= out.len() / 3 {
        return Some(lossy_put(&table, out, 0, s));
    }
    if utf8::is_utf8_by(&table, s) {
        return Some(lists::put(out, 0, s));
    }
    lossy_within(&table, s, out.len())?;
    Some(lossy_put(&table, out, 0, s))
}
