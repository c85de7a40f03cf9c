// The listing of a file's tag as a text of lines.
#![tactic(auto)]

ghost use Rattle.std.specs.Prelude.{◌≡◌, true, false, ◌≤◌, ◌<◌, ◌+◌, ◌*◌, ◌/◌, ◌%◌, length};
ghost use Rattle.std.specs.Prelude.{Some};
ghost use Rattle.lists.specs.Choice.{is_some};
ghost use Rattle.lists.specs.Write.{over, splice};
ghost use Rattle.items.specs.Items.{parse, items_in};
ghost use Rattle.ape.specs.Tag.{read_tag};
ghost use Rattle.ape.specs.Answers.{read_area};
ghost use Rattle.listing.specs.Listing as L;

use items::Stepped;

fn hex_digit(d: u8) -> u8
    requires { d < 16 }
    ensures { result ≡ L.hex_digit d }
{
    if d < 10 {
        return b'0' + d;
    }
    b'W' + d
}

// Whether a byte prints as it is.
fn is_plain(key: bool, b: u8) -> bool
    ensures { result ≡ L.is_plain key b }
{
    (0x20..=0x7E).contains(&b) && b != b'\\' && !(key && b == b'=')
}

// Writes a byte as it prints.
fn put_byte(out: &mut [u8], at: usize, key: bool, b: u8) -> usize
    requires { at + 3 ≤ length out.old }
    ensures { (result ≡ at + length (L.printed key b)) × (out.new ≡ splice out.old at (L.printed key b)) }
{
    if is_plain(key, b) {
        let one = [b];
        return lists::put(out, at, &one);
    }
    let three = [b'\\', hex_digit(b / 16), hex_digit(b % 16)];
    lists::put(out, at, &three)
}

// Writes bytes as they print.
fn put_text(out: &mut [u8], at: usize, key: bool, s: &[u8]) -> usize
    requires { at + 3 * length s.now ≤ length out.old }
    ensures { (result ≡ at + length (L.printed_all key s.now))
        × (out.new ≡ splice out.old at (L.printed_all key s.now)) }
{
    let mut end = at;
    for &b in s {
        end = put_byte(out, end, key, b);
    }
    end
}

// Writes the line of an item.
fn put_line(out: &mut [u8], at: usize, key: &[u8], value: &[u8]) -> usize
    requires { at + (3 * length key.now + 3 * length value.now + 2) ≤ length out.old }
    ensures { let new = L.line key.now value.now in
        (result ≡ at + length new) × (out.new ≡ splice out.old at new) }
{
    let a = put_text(out, at, true, key);
    let b = lists::put(out, a, b"=");
    let c = put_text(out, b, false, value);
    lists::put(out, c, b"\n")
}

// Writes the lines of a well-formed area.
fn put_lines(out: &mut [u8], at: usize, area: &[u8], count: usize) -> usize
    requires { (is_some (parse count area.now) ≡ true) × (at + 3 * length area.now ≤ length out.old) }
    ensures { (result ≡ at + length (L.lines (items_in count area.now)))
        × (out.new ≡ splice out.old at (L.lines (items_in count area.now))) }
{
    let mut from = 0;
    let mut end = at;
    for _ in 0..count {
        let Stepped::Item {
            key_start,
            key_end,
            value_start,
            value_end,
            ..
        } = reader::item_at(area, from)
        else {
            return end;
        };
        end = put_line(
            out,
            end,
            &area[key_start..key_end],
            &area[value_start..value_end],
        );
        from = value_end;
    }
    end
}

// Writes the number of items and their lines.
fn put_listed(out: &mut [u8], area: &[u8], count: usize) -> usize
    requires { (is_some (parse count area.now) ≡ true) × (count < 1000000000) × (17 + 3 * length area.now ≤ length out.old) }
    ensures { (result ≡ length (L.listed (Some (items_in count area.now))))
        × (out.new ≡ over (L.listed (Some (items_in count area.now))) out.old) }
{
    let a = lists::put(out, 0, b"items=");
    let b = decimal::put_decimal(out, a, count as u32, 1, 10, 10);
    let c = lists::put(out, b, b"\n");
    put_lines(out, c, area, count)
}

// How many bytes the items of any file that is listed may have: three times its own.
const ROOM: usize = 49152;

// The same for a short tag: room of this size costs less to clear.
const SMALL_ROOM: usize = 3072;

// Whether the small room surely holds the items of a file's tag: three times their bytes. The footer's size counts 32 bytes of its own.
fn is_short(file: &[u8]) -> bool
    ensures { result ≡ true → length (read_area (read_tag file.now)) ≤ 3072 }
{
    let Some(footer) = ape::find_footer(file) else {
        return true;
    };
    frame::read_u32_le(file, footer + 12) <= 1056
}

// Lists the tag of a file that is not too long. The items are read into `area`.
fn list_in(file: &[u8], area: &mut [u8], text: &mut [u8; 147473]) -> usize
    requires { (length file.now ≤ 16384) × (length (read_area (read_tag file.now)) ≤ length area.old) }
    ensures { (result ≡ length (L.listing file.now)) × (text.new ≡ over (L.listing file.now) text.old) }
{
    match ape::read_ape_tag(file, area) {
        Ok(Some(size)) => put_listed(text, &area[..size.length], size.count),
        Ok(None) => lists::put(text, 0, b"items=none\n"),
        Err(_) => lists::put(text, 0, b"items=none\n"),
    }
}

// Lists the tag of a file: `refused=1` for a file that is too long, `items=none` for no tag, else how many items were read and a line for each,
// also where a key comes twice.
pub fn list_tag(file: &[u8], text: &mut [u8; 147473]) -> usize
    ensures { (result ≡ length (L.listing file.now)) × (text.new ≡ over (L.listing file.now) text.old) }
{
    if replies::LISTING_LIMIT < file.len() {
        return lists::put(text, 0, b"refused=1\n");
    }
    if is_short(file) {
        let mut area = [0u8; SMALL_ROOM];
        return list_in(file, &mut area, text);
    }
    let mut area = [0u8; ROOM];
    list_in(file, &mut area, text)
}
