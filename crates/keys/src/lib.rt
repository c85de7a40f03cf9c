// Keys of items: compared without regard to the case of ASCII letters, the eight keys of mp3gain, and the rule for a key.
#![tactic(auto)]

ghost use Rattle.std.specs.Prelude.{◌≡◌, ◌≤◌, ◌<◌, ◌+◌, eqb, length, take, drop, map, option_map, IsTrue, ◌↔◌};
ghost use Rattle.lists.specs.Bytes.{all};
ghost use Rattle.lists.specs.Write.{splice};
ghost use Rattle.keys.specs.Keys.{upper, upper_all, same_key, printable, which_of, which_key, place_of, is_from, is_mp3gain_key, is_undone, is_replay_gain, is_reserved, is_key};

// The gain steps that undo an apply, `left,right,W|N`.
pub const TAG_MP3GAIN_UNDO: [u8; 12] = *b"MP3GAIN_UNDO";

// The least and the greatest gain of a file, `min,max`.
pub const TAG_MP3GAIN_MINMAX: [u8; 14] = *b"MP3GAIN_MINMAX";

// The least and the greatest gain of an album.
pub const TAG_MP3GAIN_ALBUM_MINMAX: [u8; 20] = *b"MP3GAIN_ALBUM_MINMAX";

pub const TAG_REPLAYGAIN_TRACK_GAIN: [u8; 21] = *b"REPLAYGAIN_TRACK_GAIN";

pub const TAG_REPLAYGAIN_TRACK_PEAK: [u8; 21] = *b"REPLAYGAIN_TRACK_PEAK";

pub const TAG_REPLAYGAIN_ALBUM_GAIN: [u8; 21] = *b"REPLAYGAIN_ALBUM_GAIN";

pub const TAG_REPLAYGAIN_ALBUM_PEAK: [u8; 21] = *b"REPLAYGAIN_ALBUM_PEAK";

pub const TAG_REPLAYGAIN_ALGORITHM: [u8; 20] = *b"REPLAYGAIN_ALGORITHM";

// The eight keys.
const MP3GAIN_VALUE_KEYS: [&[u8]; 8] = [
    &TAG_MP3GAIN_UNDO,
    &TAG_MP3GAIN_MINMAX,
    &TAG_MP3GAIN_ALBUM_MINMAX,
    &TAG_REPLAYGAIN_TRACK_GAIN,
    &TAG_REPLAYGAIN_TRACK_PEAK,
    &TAG_REPLAYGAIN_ALBUM_GAIN,
    &TAG_REPLAYGAIN_ALBUM_PEAK,
    &TAG_REPLAYGAIN_ALGORITHM,
];

// Whether the first byte is the capital of the second.
fn is_capital_of(capital: u8, small: u8) -> bool
    ensures { IsTrue result ↔ ((97 ≤ small) × (small ≤ 122) × (capital + 32 ≡ small)) }
{
    small.is_ascii_lowercase() && capital == small - 32
}

// Whether two bytes are equal but for the case of a letter. Of two that differ, the lesser is the capital.
fn same_letter(a: u8, b: u8) -> bool
    ensures { result ≡ eqb (upper a) (upper b) }
{
    if a == b {
        true
    } else if a < b {
        is_capital_of(a, b)
    } else {
        is_capital_of(b, a)
    }
}

// Whether the two are equal but for the case of their letters. Keys often begin alike, so the last letters are compared first.
pub fn same_key(a: &[u8], b: &[u8]) -> bool
    ensures { result ≡ same_key a.now b.now }
{
    if a.len() != b.len() {
        return false;
    }
    for i in (0..a.len()).rev() {
        if !same_letter(a[i], b[i]) {
            return false;
        }
    }
    true
}

// Writes `src` into `out` from `at`, its letters in upper case, and answers where it ends.
pub fn put_upper(out: &mut [u8], at: usize, src: &[u8]) -> usize
    requires { at + length src.now ≤ length out.old }
    ensures { (result ≡ at + length src.now) × (out.new ≡ splice out.old at (upper_all src.now)) }
{
    for (i, &b) in src.iter().enumerate() {
        out[at + i] = b.to_ascii_uppercase();
    }
    at + src.len()
}

// The place of a key among these names, without regard to case.
fn place_in(names: &[&[u8]], key: &[u8]) -> Option<usize>
    ensures { result ≡ which_of (map (λ n. n.now) names.now) key.now }
{
    names.iter().position(|name| same_key(key, name))
}

// The place of a key in MP3GAIN_VALUE_KEYS, without regard to case. Most keys are shorter than each of the eight, so the length is tested first.
pub fn which_key(key: &[u8]) -> Option<usize>
    ensures { result ≡ which_key key.now }
{
    if key.len() < 12 || key.len() > 21 {
        return None;
    }
    place_in(&MP3GAIN_VALUE_KEYS, key)
}

// The eight keys by name, in the order of MP3GAIN_VALUE_KEYS.
#[derive(Clone, Copy)]
pub enum Key {
    Undo,
    Minmax,
    AlbumMinmax,
    TrackGain,
    TrackPeak,
    AlbumGain,
    AlbumPeak,
    Algorithm,
}

// Which of the eight keys it is, by name.
pub fn known_key(key: &[u8]) -> Option<Key>
    ensures { which_key key.now ≡ option_map place_of result }
{
    Some(match which_key(key)? {
        0 => Key::Undo,
        1 => Key::Minmax,
        2 => Key::AlbumMinmax,
        3 => Key::TrackGain,
        4 => Key::TrackPeak,
        5 => Key::AlbumGain,
        6 => Key::AlbumPeak,
        _ => Key::Algorithm,
    })
}

// Whether it is one of the eight keys, from the one at a place on.
fn is_from(key: &[u8], first: usize) -> bool
    ensures { result ≡ is_from first key.now }
{
    which_key(key).is_some_and(|i| first <= i)
}

// Whether it is one of the eight keys.
pub fn is_mp3gain(key: &[u8]) -> bool
    ensures { result ≡ is_mp3gain_key key.now }
{
    is_from(key, 0)
}

// Whether it is one of UNDONE_KEYS: what has no meaning any more after an undo.
pub fn is_undone(key: &[u8]) -> bool
    ensures { result ≡ is_undone key.now }
{
    is_from(key, 2)
}

// Whether it is one of REPLAYGAIN_KEYS.
pub fn is_replaygain(key: &[u8]) -> bool
    ensures { result ≡ is_replay_gain key.now }
{
    is_from(key, 3)
}

// Whether a byte is printable ASCII.
fn is_printable(b: u8) -> bool
    ensures { result ≡ printable b }
{
    matches!(b, 0x20..=0x7E)
}

// Whether N bytes from `at` are.
fn printable_block<const N: usize>(s: &[u8], at: usize) -> bool
    requires { at + N ≤ length s.now }
    ensures { result ≡ all printable (take N (drop at s.now)) }
{
    lists::all_of::<N, _>(s, at, is_printable)
}

// Whether every byte is, N at a time: the last N, and then the blocks from the start, of which the last may reach into those N.
fn printable_by<const N: usize>(s: &[u8]) -> bool
    requires { (0 < N) × (N ≤ length s.now) }
    ensures { result ≡ all printable s.now }
{
    let last = s.len() - N;
    if !printable_block::<N>(s, last) {
        return false;
    }
    for at in (0..last).step_by(N) {
        if !printable_block::<N>(s, at) {
            return false;
        }
    }
    true
}

// Whether every byte is.
fn all_printable(s: &[u8]) -> bool
    ensures { result ≡ all printable s.now }
{
    match s.len() {
        0..=3 => s.iter().all(|b| is_printable(*b)),
        4..=15 => printable_by::<4>(s),
        _ => printable_by::<16>(s),
    }
}

// Whether the APEv2 specification keeps the key for others.
fn is_reserved(key: &[u8]) -> bool
    ensures { result ≡ is_reserved key.now }
{
    same_key(key, b"ID3")
        || same_key(key, b"TAG")
        || same_key(key, b"OggS")
        || same_key(key, b"MP+")
}

// The rule for a key, which refusal 3 stands for.
pub fn is_key(key: &[u8]) -> bool
    ensures { result ≡ is_key key.now }
{
    2 <= key.len() && key.len() <= 255 && all_printable(key) && !is_reserved(key)
}
