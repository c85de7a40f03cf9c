// A reader of an item area: a struct that holds the area and a place in it, and thin functions over it. The work is in `items::step`.
#![tactic(auto)]

ghost use Rattle.std.specs.Prelude.{◌≡◌};
ghost use Rattle.items.specs.Answers.{step_of};

use items::Stepped;

// Where an area is read next.
#[derive(Clone, Copy)]
pub struct Reader<'a> {
    pub area: &'a [u8],
    pub at: usize,
}

// A reader of an area, at a place in it.
pub fn new<'a>(area: &'a [u8], at: usize) -> Reader<'a>
    ensures { (result.area ≡ area.entry) × (result.at ≡ at) }
{
    Reader { area, at }
}

// The item at the reader's place. The reader does not move: the next item begins where this one's value ends.
pub fn next<'a>(r: Reader<'a>) -> Stepped
    ensures { result ≡ step_of r.entry.area.now r.entry.at }
{
    items::step(r.area, r.at)
}

// The item at a place of an area, for callers that hold no reader.
pub fn item_at(area: &[u8], at: usize) -> Stepped
    ensures { result ≡ step_of area.now at }
{
    next(new(area, at))
}
