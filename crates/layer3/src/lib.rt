// Layer III frames: their headers, and the bits of their gain fields.
#![tactic(auto)]

ghost use Rattle.std.specs.Prelude.{◌≡◌, false, cond, ◌&&◌, ◌≤◌, ◌<◌, ◌+◌, ◌*◌, ◌/◌, ◌%◌, length, get_or, None};
ghost use Rattle.layer3.specs.Header.{has_rate, has_sampling, unpadded_size, header_of};
ghost use Rattle.layer3.specs.Sizes.{SizeTable};
ghost use Rattle.layer3.specs.Bits.{word_at, weight, read_bits, write_bits};
ghost use Rattle.layer3.specs.Fields.{side_start, before_granules, channel_bits, before_gain};
ghost use Rattle.layer3.specs.Walk.{id3_size, id3_footer, walk_start, frame_at, walk};

// What a valid header says of its frame: how many bytes it has, whether it is of ISO/IEC 11172-3 (MPEG-1, two granules) or of 13818-3 (MPEG-2, one),
// whether it has one channel, and whether a checksum follows the header.
#[derive(Clone, Copy)]
pub struct Frame {
    pub size: usize,
    pub mpeg1: bool,
    pub mono: bool,
    pub checksum: bool,
}

// Frame lengths without padding, by the ID bit, the bit rate index and the sampling index: 0 where one of these is reserved or free. A call binds
// it once and lends it down: a constant array that is indexed in a function is set up anew at each call of that function.
pub const SIZES: [usize; 128] = [
    0, 0, 0, 0, 26, 24, 36, 0, 52, 48, 72, 0, 78, 72, 108, 0, 104, 96, 144, 0, 130, 120, 180, 0,
    156, 144, 216, 0, 182, 168, 252, 0, 208, 192, 288, 0, 261, 240, 360, 0, 313, 288, 432, 0, 365,
    336, 504, 0, 417, 384, 576, 0, 470, 432, 648, 0, 522, 480, 720, 0, 0, 0, 0, 0, 0, 0, 0, 0, 104,
    96, 144, 0, 130, 120, 180, 0, 156, 144, 216, 0, 182, 168, 252, 0, 208, 192, 288, 0, 261, 240,
    360, 0, 313, 288, 432, 0, 365, 336, 504, 0, 417, 384, 576, 0, 522, 480, 720, 0, 626, 576, 864,
    0, 731, 672, 1008, 0, 835, 768, 1152, 0, 1044, 960, 1440, 0, 0, 0, 0, 0,
];

// The length without padding of a frame with this third byte: 0 where its bit rate or its sampling rate is reserved or free.
fn unpadded_size(sizes: &[usize; 128], mpeg1: bool, c: u8) -> usize
    requires { SizeTable sizes.now }
    ensures { (result ≡ cond (has_rate c && has_sampling c) (unpadded_size mpeg1 (c / 16) (c / 4 % 4)) 0) × (result ≤ 1440) }
{
    let place = usize::from(c / 4);
    if mpeg1 {
        sizes[64 + place]
    } else {
        sizes[place]
    }
}

// The frame that a header of these four bytes begins, if it is valid.
pub fn parse_header(sizes: &[usize; 128], a: u8, b: u8, c: u8, d: u8) -> Option<Frame>
    requires { SizeTable sizes.now }
    ensures { result ≡ header_of a b c d }
{
    if a != 255 || b / 16 != 15 || b / 2 % 4 != 1 || d % 4 == 2 {
        return None;
    }
    let mpeg1 = b / 8 % 2 == 1;
    let n = unpadded_size(sizes, mpeg1, c);
    if n == 0 {
        return None;
    }
    Some(Frame {
        size: n + usize::from(c / 2 % 2),
        mpeg1,
        mono: d / 64 == 3,
        checksum: b % 2 == 0,
    })
}

// The frame that counts at a place of audio.
pub fn frame_at(sizes: &[usize; 128], s: &[u8], at: usize) -> Option<Frame>
    requires { (SizeTable sizes.now) × (at < length s.now) }
    ensures { result ≡ frame_at s.now at }
{
    let room = s.len() - at;
    if s[at] != 255 || room < 24 {
        return None;
    }
    parse_header(sizes, s[at], s[at + 1], s[at + 2], s[at + 3]).filter(|h| h.size <= room)
}

// Whether a header may begin at a place, by its first two bytes: where it says no, no frame counts there.
fn may_begin(s: &[u8], at: usize) -> bool
    requires { at < length s.now }
    ensures { (result ≡ false) → (None ≡ frame_at s.now at) }
{
    s[at] == 255 && 2 <= s.len() - at && s[at + 1] / 16 == 15 && s[at + 1] / 2 % 4 == 1
}

// The next byte 255 from `at` on, or the end: the walk finds the same from there.
fn next_255(s: &[u8], at: usize) -> usize
    ensures { let bytes = s.now in (at ≤ result) × (walk (length bytes) bytes result ≡ walk (length bytes) bytes at) }
{
    lists::find_byte(s, at, 255)
}

// The next place from `at` on where a header may begin: the walk finds the same from there. No `for`: each turn goes on to the next byte 255.
pub fn next_sync(s: &[u8], at: usize) -> usize
    ensures { let bytes = s.now in (at ≤ result) × (walk (length bytes) bytes result ≡ walk (length bytes) bytes at) }
{
    let mut i = next_255(s, at);
    while i < s.len() && !may_begin(s, i) {
        i = next_255(s, i + 1);
    }
    i
}

// Where the walk goes on behind the frame from `at` to `end`. One byte in each 64 of the frame is looked at, so that the processor fetches ahead of
// the walk; where all of them are 0 a header is looked for from the end on, which finds the same.
pub fn pass_frame(s: &[u8], at: usize, end: usize) -> usize
    requires { (at ≤ end) × (end ≤ length s.now) × (length s.now ≤ 16777216) }
    ensures { let bytes = s.now in (end ≤ result) × (walk (length bytes) bytes result ≡ walk (length bytes) bytes end) }
{
    if end <= at + 64 {
        return end;
    }
    let mut seen = 0;
    for i in (at + 64..end).step_by(64) {
        seen |= s[i];
    }
    if seen == 0 { next_sync(s, end) } else { end }
}

// The two bytes at a place as one number.
fn word_at(s: &[u8], at: usize) -> u32
    requires { at + 1 < length s.now }
    ensures { (result ≡ word_at s.now at) × (result < 65536) }
{
    u32::from(s[at]) * 256 + u32::from(s[at + 1])
}

// What the last bit of the field that begins at a bit counts for in the two bytes where it begins.
fn weight(bit: usize) -> u32
    ensures { (result ≡ weight bit) × (0 < result) × (result ≤ 256) }
{
    1 << (8 - bit % 8)
}

// The field that begins at a bit of `s`.
pub fn read_bits(s: &[u8], bit: usize) -> u8
    requires { bit / 8 + 1 < length s.now }
    ensures { result ≡ read_bits s.now bit }
{
    (word_at(s, bit / 8) / weight(bit) % 256) as u8
}

// Another number in the field that begins at a bit of `s`: what stands above it and what stands below it stays.
pub fn write_bits(s: &mut [u8], bit: usize, v: u8)
    requires { bit / 8 + 1 < length s.old }
    ensures { s.new ≡ write_bits s.old bit v }
{
    let at = bit / 8;
    let k = weight(bit);
    let w = word_at(s, at);
    let x = w / (k * 256) * (k * 256) + u32::from(v) * k + w % k;
    s[at] = (x / 256) as u8;
    s[at + 1] = (x % 256) as u8;
}

// The byte at a place, 0 past the end.
fn byte_at(s: &[u8], at: usize) -> u8
    ensures { result ≡ get_or s.now at 0 }
{
    s.get(at).copied().unwrap_or(0)
}

// Its low seven bits.
fn seven_at(s: &[u8], at: usize) -> usize
    ensures { (result ≡ get_or s.now at 0 % 128) × (result < 128) }
{
    usize::from(byte_at(s, at) % 128)
}

// The size in an ID3v2 header.
fn id3_size(s: &[u8]) -> usize
    ensures { (result ≡ id3_size s.now) × (result < 268435456) }
{
    ((seven_at(s, 6) * 128 + seven_at(s, 7)) * 128 + seven_at(s, 8)) * 128 + seven_at(s, 9)
}

// The ten bytes more that an ID3v2 header may announce.
fn id3_footer(s: &[u8]) -> usize
    ensures { (result ≡ id3_footer s.now) × (result ≤ 10) }
{
    if byte_at(s, 5) / 16 % 2 == 1 { 10 } else { 0 }
}

// Where the walk begins: behind an ID3v2 tag at byte 0.
pub fn walk_start(s: &[u8]) -> usize
    ensures { result ≡ walk_start s.now }
{
    if lists::starts_with(s, 0, b"ID3") {
        10 + id3_size(s) + id3_footer(s)
    } else {
        0
    }
}

// From a frame's start to its side information, in bits.
pub fn side_start(h: Frame) -> usize
    ensures { (result ≡ side_start h) × (result ≤ 48) }
{
    if h.checksum { 48 } else { 32 }
}

// Where the gain fields of a frame stand: the bit of the first, how many bits on the next one follows, and how many granules there are, each with a
// field of the left channel and, unless there is one channel, a field of the right one behind it.
#[derive(Clone, Copy)]
pub struct GainPlaces {
    pub first: usize,
    pub next: usize,
    pub granules: usize,
}

// The places of the gain fields of a frame that starts at a byte. The kind of frame is a parameter, so that the compiler knows at which bit of its
// byte each field begins.
pub fn gain_places<const MPEG1: bool, const MONO: bool>(h: Frame, at: usize) -> GainPlaces
    requires { (h.mpeg1 ≡ MPEG1) × (h.mono ≡ MONO) × (at ≤ 16777216) }
    ensures { (result.first ≡ 8 * at + (side_start h + before_granules h + before_gain)) × (result.next ≡ channel_bits h)
        × (result.granules ≡ cond h.mpeg1 2 1) }
{
    let side = 8 * at + side_start(h);
    if MPEG1 {
        GainPlaces {
            first: side + if MONO { 39 } else { 41 },
            next: 59,
            granules: 2,
        }
    } else {
        GainPlaces {
            first: side + if MONO { 30 } else { 31 },
            next: 63,
            granules: 1,
        }
    }
}
