// A file's sections, one behind the other: each function judges one of them, and hands on to the one that judges the next.
ghost use Rattle.std.specs.Prelude.{◌++◌, ◌≡◌, ◌+◌, ◌*◌, ◌≤◌, Ok, Err, length};
ghost use Rattle.verdicts.specs.Tests.{refusal, by};
ghost use Rattle.file.specs.Contents.{longest_label, most_tracks, track_width, entries, sectors_of, carried_bytes};
ghost use Rattle.file.specs.Sections.{count_width, count_at, section_at, end as end_of, held, label_in, tracks_in, answers_in, sections_in};
ghost use Rattle.file.specs.Refusals.{answers_tests, data_tests, head_tests, tracks_tests, whole_tests};
ghost use Rattle.file.specs.Turns.{count_tests, section_tests};

use super::lists::{answers_asked, tracks_asked};
use super::{COUNT_WIDTH, LONGEST_LABEL, MOST_TRACKS, Refusal, Section, Sections, TRACK_WIDTH};

// The number in the four bytes at `at`, most significant first.
#[tactic(auto, unfolding(crate::specs::Sections::count_at))]
fn count_at(file: &[u8], at: usize) -> u32
    requires { at + 4 ≤ length file.now }
    ensures { result ≡ count_at file.now at }
{
    u32::from_be_bytes([file[at], file[at + 1], file[at + 2], file[at + 3]])
}

impl Section {
    // Where it ends, where each element of it takes `width` bytes.
    fn end(self, width: usize) -> usize
        requires { width ≤ track_width }
        ensures { result ≡ end_of width self }
    {
        self.place as usize + width * (self.count as usize)
    }

    // Its bytes, where it is there.
    fn part(self, file: &[u8], width: usize) -> &[u8]
        requires { (width ≤ track_width) × (end_of width self ≤ length file.now) }
        ensures { result.now ≡ held width self file.now }
    {
        let end = self.end(width);
        &file[self.place as usize..end]
    }
}

// The section whose count stands at `at`, where the count is from `least` to `most`; another one is refused as `wrong`.
#[tactic(auto, unfolding(verdicts::specs::Tests::refusal, verdicts::specs::Tests::by))]
fn counted(
    file: &[u8],
    at: usize,
    least: usize,
    most: usize,
    wrong: Refusal,
) -> Result<Section, Refusal>
    requires { at ≤ 65536 }
    ensures { result ≡ by (refusal (count_tests file.now at least most wrong)) (Ok (section_at file.now at)) Err }
{
    if file.len() < at + COUNT_WIDTH {
        return Err(Refusal::PastEnd);
    }
    let count = count_at(file, at);
    if !(least..=most).contains(&(count as usize)) {
        return Err(wrong);
    }
    Ok(Section {
        place: (at + COUNT_WIDTH) as u32,
        count,
    })
}

// The same, where the section is there too.
#[tactic(auto, unfolding(verdicts::specs::Tests::refusal, verdicts::specs::Tests::by))]
fn section(
    file: &[u8],
    at: usize,
    least: usize,
    most: usize,
    width: usize,
    wrong: Refusal,
) -> Result<Section, Refusal>
    requires { (at ≤ 65536) × (width ≤ track_width) }
    ensures { result ≡ by (refusal (section_tests file.now at least most width wrong)) (Ok (section_at file.now at)) Err }
{
    let found = counted(file, at, least, most, wrong)?;
    if file.len() < found.end(width) {
        return Err(Refusal::PastEnd);
    }
    Ok(found)
}

// The count of the data, behind the answers.
#[tactic(auto, unfolding(crate::specs::Refusals::data_tests, crate::specs::Sections::data_in, verdicts::specs::Tests::refusal, verdicts::specs::Tests::by))]
fn from_data(
    file: &[u8],
    label: Section,
    tracks: Section,
    answers: Section,
    bytes: usize,
) -> Result<Sections, Refusal>
    requires { (label ≡ label_in file.now) × (tracks ≡ tracks_in file.now) × (answers ≡ answers_in file.now) × (end_of 1 answers ≤ 65536) × (bytes ≡ carried_bytes (entries (held track_width tracks file.now)) (held 1 answers file.now)) }
    ensures { result ≡ by (refusal (data_tests file.now)) (Ok (sections_in file.now)) Err }
{
    let data = counted(file, answers.end(1), bytes, bytes, Refusal::DataCount)?;
    Ok(Sections {
        label,
        tracks,
        answers,
        data,
    })
}

// The answers, behind the tracks.
#[tactic(auto, using(crate::proofs::Asking::sectors_most, crate::proofs::Opening::held_few), unfolding(crate::specs::Refusals::answers_tests, crate::specs::Sections::answers_in, verdicts::specs::Tests::refusal, verdicts::specs::Tests::by))]
fn from_answers(
    file: &[u8],
    label: Section,
    tracks: Section,
    sectors: usize,
) -> Result<Sections, Refusal>
    requires { (label ≡ label_in file.now) × (tracks ≡ tracks_in file.now) × (end_of track_width tracks ≤ length file.now) × (tracks.place ≤ 2 * count_width + longest_label) × (tracks.count ≤ most_tracks) × (sectors ≡ sectors_of (entries (held track_width tracks file.now))) }
    ensures { result ≡ by (refusal (answers_tests file.now ++ data_tests file.now)) (Ok (sections_in file.now)) Err }
{
    let at = tracks.end(TRACK_WIDTH);
    let answers = section(file, at, sectors, sectors, 1, Refusal::AnswerBytes)?;
    let list = tracks.part(file, TRACK_WIDTH);
    let bytes = answers_asked(list, answers.part(file, 1)).ok_or(Refusal::AnswerBytes)?;
    from_data(file, label, tracks, answers, bytes)
}

// The tracks, behind the label.
#[tactic(auto, unfolding(crate::specs::Refusals::tracks_tests, crate::specs::Sections::tracks_in, verdicts::specs::Tests::refusal, verdicts::specs::Tests::by))]
fn from_tracks(file: &[u8], label: Section) -> Result<Sections, Refusal>
    requires { (label ≡ label_in file.now) × (end_of 1 label ≤ count_width + longest_label) }
    ensures { result ≡ by (refusal (tracks_tests file.now ++ (answers_tests file.now ++ data_tests file.now))) (Ok (sections_in file.now)) Err }
{
    let at = label.end(1);
    let wrong = Refusal::LabelOrTracks;
    let tracks = section(file, at, 0, MOST_TRACKS, TRACK_WIDTH, wrong)?;
    let sectors = tracks_asked(tracks.part(file, TRACK_WIDTH)).ok_or(wrong)?;
    from_answers(file, label, tracks, sectors)
}

// A file up to the count of its data.
#[tactic(auto, unfolding(crate::specs::Refusals::head_tests, crate::specs::Refusals::label_tests, crate::specs::Sections::label_in, verdicts::specs::Tests::refusal, verdicts::specs::Tests::by))]
pub(crate) fn from_label(file: &[u8]) -> Result<Sections, Refusal>
    ensures { result ≡ by (refusal (head_tests file.now)) (Ok (sections_in file.now)) Err }
{
    let label = section(file, 0, 0, LONGEST_LABEL, 1, Refusal::LabelOrTracks)?;
    from_tracks(file, label)
}

// The end of a file of so many bytes: the data are there, and nothing is left over.
#[tactic(auto, unfolding(crate::specs::Refusals::whole_tests, verdicts::specs::Tests::refusal, verdicts::specs::Tests::by))]
pub(crate) fn ended(found: Sections, bytes: usize) -> Result<Sections, Refusal>
    ensures { result ≡ by (refusal (whole_tests found bytes)) (Ok found) Err }
{
    let end = found.data.end(1);
    if bytes < end {
        return Err(Refusal::PastEnd);
    }
    if end < bytes {
        return Err(Refusal::LeftOver);
    }
    Ok(found)
}
