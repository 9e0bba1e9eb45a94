// Why a call is refused, with the numbers of the papers, and the tests that several calls share. A function that tests a call is named after
// what it tests; the tests stand in the order of the papers, and the first that applies gives the refusal.
#![tactic(auto)]

ghost use Rattle.calls.specs.Outcomes.{IsRefusalNumber, IsCheckedNumber, IsTested};
ghost use Rattle.calls.specs.Outcomes.{IsImageLength, IsAreaLength, IsMarkByte, IsControlRecord, IsSectorNumber};

use marks::{CONTROL_MARK, DATA_MARK};

// The most bytes of an image that is read or rewritten.
pub const LONGEST_IMAGE: usize = 24576;

// CAPITAL LETTER D, the one first byte that a control record has on cylinder 0.
pub const LETTER_D: u8 = 0x44;

// Why a call is refused, in the order of the papers' numbers.
#[derive(Clone, Copy, Debug, PartialEq, Eq)]
pub enum Refusal {
    // image length: read and rewrite 1 to LONGEST_IMAGE bytes; format the table's value
    ImageLength,
    // cylinder above HIGHEST_CYLINDER
    CylinderNumber,
    // side above HIGHEST_SIDE
    SideNumber,
    // layout above HIGHEST, or not allowed on this track
    LayoutNumber,
    // a data area of the wrong length
    AreaLength,
    // marks: wrong number of them, or one not FB or F8
    MarkBytes,
    // cylinder 0, mark F8, first data byte not hex 44
    ControlRecord,
    // the layout's fields add up to more than the image
    Overfull,
    // sector number 0 or above the count
    SectorNumber,
    // rewrite: reading answers 21, 22, 23 or 24 for the sector
    Unreadable,
    // rewrite: block's mark not at a multiple of eight cells
    OffBoundary,
    // a step after the last
    Finished,
    // a step: no such mark at the noted place on a byte boundary, or the block passes the end
    NoBlock,
}

// The number that the papers give a refusal.
impl From<Refusal> for u8 {
    ghost from_gives = { IsRefusalNumber };

    fn from(refusal: Refusal) -> u8 {
        match refusal {
            Refusal::ImageLength => 1,
            Refusal::CylinderNumber => 2,
            Refusal::SideNumber => 3,
            Refusal::LayoutNumber => 4,
            Refusal::AreaLength => 5,
            Refusal::MarkBytes => 6,
            Refusal::ControlRecord => 7,
            Refusal::Overfull => 8,
            Refusal::SectorNumber => 9,
            Refusal::Unreadable => 10,
            Refusal::OffBoundary => 11,
            Refusal::Finished => 12,
            Refusal::NoBlock => 13,
        }
    }
}

// The number of a call's answer, whatever it is: 0, or the refusal's.
pub fn checked_number<T: Copy>(answer: Result<T, Refusal>) -> u8
    ensures { IsCheckedNumber answer result }
{
    match answer {
        Ok(_) => 0,
        Err(refusal) => u8::from(refusal),
    }
}

// What one test says. Its flags are joined by `|` and `&`: there is no branch that a proof would have to follow.
#[tactic(auto, unfolding(crate::specs::Refusals::told, verdicts::specs::Tests::refusal, verdicts::specs::Tests::by))]
pub fn tested(applies: bool, gives: Refusal) -> Result<(), Refusal>
    ensures { IsTested applies gives result }
{
    if applies {
        return Err(gives);
    }
    Ok(())
}

// The length of an image that is read or rewritten: refused 1.
pub fn image_length(length: usize) -> Result<(), Refusal>
    ensures { IsImageLength length result }
{
    tested(
        (length == 0) | (LONGEST_IMAGE < length),
        Refusal::ImageLength,
    )
}

// The length of a data area: refused 5.
pub fn area_length(wanted: usize, given: usize) -> Result<(), Refusal>
    ensures { IsAreaLength wanted given result }
{
    tested(given != wanted, Refusal::AreaLength)
}

// The byte of one mark: refused 6.
pub fn mark_byte(mark: u32) -> Result<(), Refusal>
    ensures { IsMarkByte mark result }
{
    tested(
        (mark != DATA_MARK) & (mark != CONTROL_MARK),
        Refusal::MarkBytes,
    )
}

// The first data byte after a control mark: refused 7.
pub fn control_record(cylinder: u32, mark: u32, first: u8) -> Result<(), Refusal>
    ensures { IsControlRecord cylinder mark first result }
{
    tested(
        (cylinder == 0) & (mark == CONTROL_MARK) & (first != LETTER_D),
        Refusal::ControlRecord,
    )
}

// The number of a sector among so many: refused 9.
pub fn sector_number(sectors: usize, sector: u32) -> Result<(), Refusal>
    ensures { IsSectorNumber sectors sector result }
{
    tested(
        (sector == 0) | (sectors < sector as usize),
        Refusal::SectorNumber,
    )
}
