// What a sector answers, where its mark is and how many of its clock cells are doubtful: its record; the numbers that the papers give the answers,
// and what a whole block answers.
#![tactic(auto)]

ghost use Rattle.std.specs.Prelude.{◌≡◌, eqb};
ghost use Rattle.marks.specs.Marks.{mark_byte};
ghost use Rattle.marks.specs.declared.Mark.TheVariants.{Control};
ghost use Rattle.answers.specs.Outcomes.{AreUnread, IsFaultNumber, IsAnswerNumber, IsAnswerOf, TellsAnswer, IsAnswerAfter, TellsCarrying};

use calls::LETTER_D;
use layouts::MOST_SECTORS;
use marks::Mark;

// Why a sector is refused, in the order of the papers' numbers 21 to 27.
#[derive(Clone, Copy, Debug, PartialEq, Eq)]
pub enum Fault {
    // no accepted identifier
    NoIdentifier,
    // more than one accepted identifier
    Doubled,
    // no data block
    NoBlock,
    // the block passes the end of the image
    PastEnd,
    // open mark
    OpenMark,
    // EDC wrong
    WrongEdc,
    // a control record on cylinder 0 that does not begin with D
    ForbiddenLetter,
}

// What a sector answers. (Refused stands first: what the logic reads past an array's end is each enum's first case.)
#[derive(Clone, Copy, Debug, PartialEq, Eq)]
pub enum Answer {
    // the slot is all zero
    Refused(Fault),
    // data mark, EDC right; the slot holds the bytes
    Data,
    // control mark, EDC right; the slot holds the bytes
    Control,
    // control mark and the letter F, EDC right or wrong: a defective area; the slot holds F and zeros
    Defective,
}

// CAPITAL LETTER F, with which a control record begins whose sector contains a defective area.
pub const LETTER_F: u8 = 0x46;

// The place of a sector that has none: no image has such a cell.
pub const NO_PLACE: u32 = 4294967295;

// What is known of one sector.
#[derive(Clone, Copy, Debug, PartialEq, Eq)]
pub struct Record {
    pub answer: Answer,
    // the cell at which its data, control or open mark begins; NO_PLACE for 21, 22 and 23
    pub place: u32,
    // how many clock cells of its block's bytes are doubtful; 0 for 21, 22, 23 and 24
    pub clocks: u32,
}

// The records of a track of which nothing is known, by sector number, from 1 on.
pub fn unread_records() -> [Record; MOST_SECTORS]
    ensures { AreUnread result }
{
    [Record {
        answer: Answer::Refused(Fault::NoIdentifier),
        place: NO_PLACE,
        clocks: 0,
    }; MOST_SECTORS]
}

// The number that the papers give a fault.
impl From<Fault> for u8 {
    ghost from_gives = { IsFaultNumber };

    fn from(fault: Fault) -> u8 {
        match fault {
            Fault::NoIdentifier => 21,
            Fault::Doubled => 22,
            Fault::NoBlock => 23,
            Fault::PastEnd => 24,
            Fault::OpenMark => 25,
            Fault::WrongEdc => 26,
            Fault::ForbiddenLetter => 27,
        }
    }
}

// The number that the papers give an answer.
impl From<Answer> for u8 {
    ghost from_gives = { IsAnswerNumber };

    fn from(answer: Answer) -> u8 {
        match answer {
            Answer::Refused(fault) => u8::from(fault),
            Answer::Data => 1,
            Answer::Control => 2,
            Answer::Defective => 3,
        }
    }
}

// The answer that has a number; a number that is no answer's counts as 21.
#[tactic(auto, unfolding(crate::specs::Answers::answer_of))]
pub fn answer_of(number: u32) -> Answer
    ensures { IsAnswerOf number result }
{
    match number {
        1 => Answer::Data,
        2 => Answer::Control,
        3 => Answer::Defective,
        22 => Answer::Refused(Fault::Doubled),
        23 => Answer::Refused(Fault::NoBlock),
        24 => Answer::Refused(Fault::PastEnd),
        25 => Answer::Refused(Fault::OpenMark),
        26 => Answer::Refused(Fault::WrongEdc),
        27 => Answer::Refused(Fault::ForbiddenLetter),
        _ => Answer::Refused(Fault::NoIdentifier),
    }
}

// Whether the number is an answer's: by what it lies between, so that the back end can look at many numbers at once.
#[tactic(auto, unfolding(crate::specs::Answers::answer_of))]
pub fn is_answer(number: u8) -> bool
    ensures { TellsAnswer number result }
{
    ((1 <= number) & (number <= 3)) | ((21 <= number) & (number <= 27))
}

// Whether the answer carries the sector's bytes.
pub fn carries_bytes(answer: Answer) -> bool
    ensures { TellsCarrying answer result }
{
    !matches!(answer, Answer::Refused(_))
}

// Whether the mark is that of a control record.
fn is_control(mark: Mark) -> bool
    ensures { result ≡ eqb (mark_byte mark) (mark_byte Control) }
{
    mark == Mark::Control
}

// What a whole block answers after its mark, data or control, by its first data byte and whether its EDC is right. The tests stand in the order of the
// papers; their flags are joined by `&`, so that no branch has to be followed.
#[tactic(auto, unfolding(crate::specs::Letters::answer_after))]
pub fn answer_after(cylinder: u32, mark: Mark, first: u8, right: bool) -> Answer
    ensures { IsAnswerAfter cylinder mark first right result }
{
    let control = is_control(mark);
    let defective = control & (cylinder != 0) & (first == LETTER_F);
    let forbidden = (cylinder == 0) & control & (first != LETTER_D);
    if defective {
        return Answer::Defective;
    }
    if !right {
        return Answer::Refused(Fault::WrongEdc);
    }
    if forbidden {
        return Answer::Refused(Fault::ForbiddenLetter);
    }
    if control {
        return Answer::Control;
    }
    Answer::Data
}
