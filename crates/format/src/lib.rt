// The formatter: exactly the cells that ISO 7065-2 lays down for a track.
#![tactic(auto)]

ghost use Rattle.format.specs.Outcomes.{Formats};

use calls::Refusal;
use layouts::{MOST_SECTORS, TrackNumbers};

mod lengths;
mod refusals;
mod track;
mod write;

// The sector numbers in natural order, of which each layout takes as many as it has sectors.
const NATURAL: [u8; MOST_SECTORS] =
    *b"\x01\x02\x03\x04\x05\x06\x07\x08\x09\x0A\x0B\x0C\x0D\x0E\x0F\x10\x11\x12\x13\x14\x15\x16\x17\x18\x19\x1A";

// Formats a track: `data` has the sectors' bytes and `marks` a byte FB or F8 for each, by sector number; `image` has the table's length. A refused
// call changes nothing.
#[tactic(auto, unfolding(calls::specs::Refusals::told, verdicts::specs::Tests::by))]
pub fn format(
    numbers: TrackNumbers,
    data: &[u8],
    marks: &[u8],
    image: &mut [u8],
) -> Result<(), Refusal>
    ensures { Formats numbers.layout numbers.cylinder numbers.side «data».now marks.now image.old result image.new }
{
    refusals::tested(numbers, data, marks, image.len())?;
    let track = numbers.track();
    let sectors = track.layout.sectors;
    track::write_track(track, data, marks, &NATURAL[0..sectors], image);
    Ok(())
}
