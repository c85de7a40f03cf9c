// The numbers by which a call refuses, and the limits that they stand for.
#![tactic(auto)]

ghost use Rattle.std.specs.Prelude.{◌≡◌};
ghost use Rattle.replies.specs.Refusal.{number_of};

// The longest file, lent or written.
pub const FILE_LIMIT: usize = 16_777_216;

// The longest file that is listed.
pub const LISTING_LIMIT: usize = 16_384;

// The most items of an edited tag, and the most bytes that they have.
pub const COUNT_LIMIT: usize = 41;

pub const AREA_LIMIT: usize = 32_768;

// Why a call changed nothing, in the order of document 01's table of replies: the first is its number 1.
#[derive(Clone, Copy, PartialEq, Eq, Debug)]
pub enum Refusal {
    FileTooLong,
    StepOutOfRange,
    BadKey,
    NotUtf8,
    NoRoom,
    TagTooLarge,
    NoLeftGains,
    NotEditable,
    FlagDiffers,
    NoUndo,
    UndoOutOfRange,
    MalformedArea,
    MalformedSlip,
    SecondUndo,
    NoFrame,
    HasChecksum,
}

// The number of a refusal in document 01's table.
pub fn number(r: Refusal) -> u32
    ensures { result ≡ number_of r }
{
    match r {
        Refusal::FileTooLong => 1,
        Refusal::StepOutOfRange => 2,
        Refusal::BadKey => 3,
        Refusal::NotUtf8 => 4,
        Refusal::NoRoom => 5,
        Refusal::TagTooLarge => 6,
        Refusal::NoLeftGains => 7,
        Refusal::NotEditable => 8,
        Refusal::FlagDiffers => 9,
        Refusal::NoUndo => 10,
        Refusal::UndoOutOfRange => 11,
        Refusal::MalformedArea => 12,
        Refusal::MalformedSlip => 13,
        Refusal::SecondUndo => 14,
        Refusal::NoFrame => 15,
        Refusal::HasChecksum => 16,
    }
}
