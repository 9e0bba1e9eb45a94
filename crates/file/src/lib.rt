// The file of a read cartridge: label, tracks, answers and data, in four sections. A file is judged from its first byte on; a function of its own
// judges the part before the data, so that a reader of many files need not hold one whole.
#![tactic(auto)]

ghost use Rattle.std.specs.Prelude.{length};
ghost use Rattle.file.specs.Outcomes.{IsRefusalNumber, IsHead, IsWhole, IsRead, Writes};

mod lists;
mod reading;
mod tests;
mod writing;

// The most bytes of a label.
pub const LONGEST_LABEL: usize = 80;

// The most tracks of a file.
pub const MOST_TRACKS: usize = 150;

// The bytes of a track in the list: cylinder, side, layout.
pub const TRACK_WIDTH: usize = 3;

// The bytes of a section's count.
pub const COUNT_WIDTH: usize = 4;

// Why a file is not read or not written, in the order of the papers' numbers 31 to 36.
#[derive(Clone, Copy, Debug, PartialEq, Eq)]
pub enum Refusal {
    // a count or a section passes the end
    PastEnd,
    // the label's count, or the track list
    LabelOrTracks,
    // the answers' count does not fit the tracks, or one is no answer's number
    AnswerBytes,
    // the data's count does not fit the answers
    DataCount,
    // bytes are left over
    LeftOver,
    // the area is shorter than the file
    AreaLength,
}

// Where a section is.
#[derive(Clone, Copy, Debug, PartialEq, Eq)]
pub struct Section {
    // its first byte, past the count
    pub place: u32,
    // its count, of tracks or of bytes
    pub count: u32,
}

// Where the four sections are.
#[derive(Clone, Copy, Debug, PartialEq, Eq)]
pub struct Sections {
    pub label: Section,
    pub tracks: Section,
    pub answers: Section,
    pub data: Section,
}

// The number that the papers give a refusal.
impl From<Refusal> for u8 {
    ghost from_gives = { IsRefusalNumber };

    fn from(refusal: Refusal) -> u8 {
        match refusal {
            Refusal::PastEnd => 31,
            Refusal::LabelOrTracks => 32,
            Refusal::AnswerBytes => 33,
            Refusal::DataCount => 34,
            Refusal::LeftOver => 35,
            Refusal::AreaLength => 36,
        }
    }
}

// What a file holds, in its four sections.
#[derive(Clone, Copy)]
struct Contents<'a> {
    label: &'a [u8],
    tracks: &'a [u8],
    answers: &'a [u8],
    data: &'a [u8],
}

// Judges a file up to the count of its data, which tells how many bytes of data follow. What follows that count is not looked at.
#[tactic(auto, unfolding(crate::specs::Outcomes::head_answer))]
pub fn head(file: &[u8]) -> Result<Sections, Refusal>
    ensures { IsHead file.now result }
{
    reading::from_label(file)
}

// Judges the rest of a file of so many bytes whose head was judged: the data are there, and nothing is left over.
pub fn whole(head: Result<Sections, Refusal>, bytes: usize) -> Result<Sections, Refusal>
    ensures { IsWhole head bytes result }
{
    reading::ended(head?, bytes)
}

// Reads a file: where its sections are.
#[tactic(auto, using(crate::proofs::Opening::read_whole))]
pub fn read(file: &[u8]) -> Result<Sections, Refusal>
    ensures { IsRead file.now result }
{
    whole(head(file), file.len())
}

// Writes the file of a label, tracks of three bytes each, answers and data into the area, and zeros behind it, and says how many bytes the file has. A
// refused writing leaves zeros in the whole area.
#[tactic(auto, using(crate::proofs::Fitting::writable), unfolding(crate::specs::Outcomes::write_answer, crate::specs::Outcomes::write_area, verdicts::specs::Tests::by))]
pub fn write(
    label: &[u8],
    tracks: &[u8],
    answers: &[u8],
    data: &[u8],
    area: &mut [u8],
) -> Result<u32, Refusal>
    ensures { Writes (record { label = label.now; tracks = tracks.now; answers = answers.now; «data» = «data».now }) (length area.old) result area.new }
{
    let contents = Contents {
        label,
        tracks,
        answers,
        data,
    };
    match tests::tested(contents, area.len()) {
        Ok(()) => Ok(writing::put_file(contents, area) as u32),
        Err(refusal) => {
            area.fill(0);
            Err(refusal)
        }
    }
}
