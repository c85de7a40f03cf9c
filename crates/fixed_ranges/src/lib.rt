// Ranges read at fixed places, as an older tool does, beside the fields that we parse.
#![tactic(auto)]

ghost use Rattle.std.specs.Prelude.{◌≡◌, ◌≤◌, length, take};
ghost use Rattle.fixed_ranges.specs.Fixed as F;

// The two numbers that stand at fixed places.
#[derive(Clone, Copy)]
pub struct FixedRange {
    pub first: u32,
    pub second: u32,
}

// What the two views of a text say of each other.
#[derive(Clone, Copy)]
pub enum Views {
    Agree,
    Differ,
    OnlyOurs,
    OnlyFixed,
    Neither,
}

// How many digits stand at the front.
fn digits_len(s: &[u8]) -> usize
    ensures { (result ≤ length s.now) × (take result s.now ≡ F.digits_of s.now) }
{
    s.iter()
        .position(|x| !number::is_digit(*x))
        .unwrap_or(s.len())
}

// The number of the digits at the front.
fn leading(s: &[u8]) -> Option<u32>
    requires { length s.now ≤ 3 }
    ensures { result ≡ F.leading s.now }
{
    number::parse_natural(&s[..digits_len(s)], 999)
}

// The number of the digits that the three bytes from a place begin with.
fn leading_at(s: &[u8], at: usize) -> Option<u32>
    ensures { result ≡ F.leading (F.three at s.now) }
{
    let rest = s.get(at..)?;
    leading(&rest[..rest.len().min(3)])
}

// Reads a range at its fixed places: bytes 0 to 2, and bytes 4 to 6.
#[tactic(auto, unfolding(crate::specs::Fixed::fixed))]
pub fn fixed_range(text: &[u8]) -> Option<FixedRange>
    ensures { result ≡ F.fixed text.now }
{
    let first = leading_at(text, 0)?;
    let second = leading_at(text, 4)?;
    Some(FixedRange { first, second })
}

// What the two views of a text say of each other.
#[tactic(auto, using(std::proofs::lemmas::Bool::Decides::nat_tests), unfolding(crate::specs::Fixed::views))]
pub fn compare_range_views(text: &[u8]) -> Views
    ensures { result ≡ F.views text.now }
{
    match (values::parse_range(text), fixed_range(text)) {
        (None, None) => Views::Neither,
        (None, Some(_)) => Views::OnlyFixed,
        (Some(_), None) => Views::OnlyOurs,
        (Some(ours), Some(fixed)) => {
            if u32::from(ours.least) == fixed.first && u32::from(ours.greatest) == fixed.second {
                Views::Agree
            } else {
                Views::Differ
            }
        }
    }
}
