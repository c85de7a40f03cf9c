// The faces of crate fixed_ranges.
#![tactic(auto)]

ghost use Rattle.std.specs.Prelude.{◌≡◌};
ghost use Rattle.fixed_ranges.specs.Fixed.{fixed, views};
ghost use Rattle.c_fixed_ranges.specs.FixedFace.{fixed_face, views_number};

use fixed_ranges::Views;

// Reads a range at its fixed places: answers whether both numbers stand there.
#[unsafe(no_mangle)]
pub extern "C" fn zib_fixed_range(text: &[u8], first: &mut u32, second: &mut u32) -> bool
    ensures { let face = fixed_face (fixed text.now) first.old second.old in
        (result ≡ face.there) × (first.new ≡ face.first) × (second.new ≡ face.second) }
{
    match fixed_ranges::fixed_range(text) {
        Some(range) => {
            *first = range.first;
            *second = range.second;
            true
        }
        None => false,
    }
}

// An answer as a number.
fn views_number(v: Views) -> u8
    ensures { result ≡ views_number v }
{
    match v {
        Views::Agree => 0,
        Views::Differ => 1,
        Views::OnlyOurs => 2,
        Views::OnlyFixed => 3,
        Views::Neither => 4,
    }
}

// What the two views of a text say of each other, as a number.
#[unsafe(no_mangle)]
pub extern "C" fn zib_compare_range_views(text: &[u8]) -> u8
    ensures { result ≡ views_number (views text.now) }
{
    views_number(fixed_ranges::compare_range_views(text))
}
