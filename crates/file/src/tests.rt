// The tests of what is to be written, in the papers' order: each function makes some, and hands on to the one that makes the next.
ghost use Rattle.std.specs.Prelude.{[], ◌∷◌, ◌≡◌, ◌+◌, ◌*◌, ◌≤◌, Ok, Err, length};
ghost use Rattle.verdicts.specs.Tests.{refusal, by};
ghost use Rattle.file.specs.Contents.{content_of, longest_label, most_tracks, track_width, entries, sectors_of};
ghost use Rattle.file.specs.Refusals.{room_test, write_tests};
ghost use Rattle.file.specs.Turns.{answers_on, Short};

use super::lists::{answers_asked, tracks_asked};
use super::{COUNT_WIDTH, Contents, LONGEST_LABEL, MOST_TRACKS, Refusal, TRACK_WIDTH};

// 36: the area holds the file.
#[tactic(auto, using(crate::proofs::Putting::length_encoded), unfolding(verdicts::specs::Tests::refusal, verdicts::specs::Tests::by))]
fn room_tested(contents: Contents, room: usize) -> Result<(), Refusal>
    requires { Short (content_of contents) }
    ensures { result ≡ by (refusal (room_test (content_of contents.entry) room ∷ [])) (Ok tt) Err }
{
    let Contents {
        label,
        tracks,
        answers,
        data,
    } = contents;
    let counts = 4 * COUNT_WIDTH;
    if room < counts + label.len() + tracks.len() + answers.len() + data.len() {
        return Err(Refusal::AreaLength);
    }
    Ok(())
}

// 33, 34 and 36, of tracks that ask for so many answers.
#[tactic(auto, using(crate::proofs::Asking::sectors_most, crate::proofs::Carrying::carried_most), unfolding(verdicts::specs::Tests::refusal, verdicts::specs::Tests::by))]
fn answers_tested(contents: Contents, sectors: usize, room: usize) -> Result<(), Refusal>
    requires { (length contents.label.now ≤ longest_label) × (length contents.tracks.now ≤ track_width * most_tracks) × (sectors ≡ sectors_of (entries contents.tracks.now)) }
    ensures { result ≡ by (refusal (answers_on (content_of contents.entry) room)) (Ok tt) Err }
{
    if contents.answers.len() != sectors {
        return Err(Refusal::AnswerBytes);
    }
    let bytes = answers_asked(contents.tracks, contents.answers).ok_or(Refusal::AnswerBytes)?;
    if contents.data.len() != bytes {
        return Err(Refusal::DataCount);
    }
    room_tested(contents, room)
}

// 32, 33, 34 and 36, in an area of so many bytes.
#[tactic(auto, using(crate::proofs::Asking::list_whole), unfolding(crate::specs::Refusals::write_tests, crate::specs::Refusals::fit_tests, verdicts::specs::Tests::refusal, verdicts::specs::Tests::by))]
pub(crate) fn tested(contents: Contents, room: usize) -> Result<(), Refusal>
    ensures { result ≡ by (refusal (write_tests (content_of contents.entry) room)) (Ok tt) Err }
{
    if LONGEST_LABEL < contents.label.len() {
        return Err(Refusal::LabelOrTracks);
    }
    if MOST_TRACKS < contents.tracks.len() / TRACK_WIDTH {
        return Err(Refusal::LabelOrTracks);
    }
    let sectors = tracks_asked(contents.tracks).ok_or(Refusal::LabelOrTracks)?;
    answers_tested(contents, sectors, room)
}
