// What a track list and the answers hold: each is gone over once, and says what it asks of the section behind it.
ghost use Rattle.std.specs.Prelude.{◌≡◌, ◌+◌, ◌*◌, ◌≤◌, length};
ghost use Rattle.layouts.specs.Layouts.{layout_of, most_sectors};
ghost use Rattle.answers.specs.Answers.{answer_of, carries};
ghost use Rattle.file.specs.Contents.{most_tracks, track_width, entries, is_track, sectors_of};
ghost use Rattle.file.specs.Turns.{tracks_ask, answers_ask, carrying_ask};

use super::TRACK_WIDTH;
use layouts::{Layout, TrackNumbers};

// Whether there is such a track, with this layout.
fn is_track(cylinder: u8, side: u8, layout: u8) -> bool
    ensures { result ≡ is_track (record { cylinder = cylinder; side = side; layout = layout }) }
{
    let numbers = TrackNumbers {
        layout: layout as u32,
        cylinder: cylinder as u32,
        side: side as u32,
    };
    numbers.tested().is_ok()
}

// The tracks in one count, two to a cylinder: a list of them rises where that count does.
fn rank(cylinder: u8, side: u8) -> usize
    ensures { (result ≡ 2 * cylinder + side) × (result ≤ 765) }
{
    2 * (cylinder as usize) + (side as usize)
}

// The layout of a track of the list.
fn layout_of(layout: u8) -> Layout
    ensures { result ≡ layout_of layout }
{
    layouts::layout_of(layout as u32)
}

// How many answers go with a track list, or it is none.
#[tactic(auto, using(crate::proofs::Asking::each_track), unfolding(crate::proofs::Asking::rising_from, crate::specs::Contents::all, crate::specs::Contents::sectors_of))]
pub(crate) fn tracks_asked(tracks: &[u8]) -> Option<usize>
    requires { length tracks.now ≤ track_width * most_tracks + 2 }
    ensures { result ≡ tracks_ask tracks.now }
{
    if tracks.len() % TRACK_WIDTH != 0 {
        return None;
    }
    let mut sectors = 0;
    let mut least = 0;
    for track in tracks.chunks_exact(TRACK_WIDTH) {
        let cylinder = track[0];
        let side = track[1];
        let layout = track[2];
        let here = rank(cylinder, side);
        if !is_track(cylinder, side, layout) | (here < least) {
            return None;
        }
        sectors += layout_of(layout).sectors;
        least = here + 1;
    }
    Some(sectors)
}

// Whether the answer of a number carries bytes.
fn is_carrying(number: u8) -> bool
    ensures { result ≡ carries (answer_of number) }
{
    answers::carries_bytes(answers::answer_of(number as u32))
}

// How many of the answers of one track carry bytes, or one is none. All are gone over, the wrong ones too, and counted in a byte: so the back end
// takes many at once, and a wrong one is rare.
#[tactic(auto, unfolding(crate::specs::Contents::all, crate::specs::Contents::carrying))]
fn carrying_asked(answers: &[u8]) -> Option<usize>
    requires { length answers.now ≤ most_sectors }
    ensures { result ≡ carrying_ask answers.now }
{
    let mut carrying: u8 = 0;
    let mut right = true;
    for &number in answers {
        right = right & answers::is_answer(number);
        carrying += u8::from(is_carrying(number));
    }
    right.then_some(carrying as usize)
}

// How many data bytes go with the answers of the tracks, or an answer is none.
#[tactic(auto, using(crate::proofs::Carrying::each_track), unfolding(crate::specs::Contents::carried_bytes, crate::specs::Contents::all, crate::specs::Contents::sectors_of))]
pub(crate) fn answers_asked(tracks: &[u8], answers: &[u8]) -> Option<usize>
    requires { (length tracks.now ≤ track_width * most_tracks) × (length answers.now ≡ sectors_of (entries tracks.now)) }
    ensures { result ≡ answers_ask (entries tracks.now) answers.now }
{
    let mut bytes = 0;
    let mut rest = answers;
    for track in tracks.chunks_exact(TRACK_WIDTH) {
        let layout = layout_of(track[2]);
        let (here, behind) = rest.split_at(layout.sectors);
        bytes += carrying_asked(here)? * layout.size;
        rest = behind;
    }
    Some(bytes)
}
