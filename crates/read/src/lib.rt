// The reader: what a track's image holds, sector by sector. What can't be read is reported.
#![tactic(auto)]

ghost use Rattle.std.specs.Prelude.{length};
ghost use Rattle.read.specs.Outcomes.{Reads};

use answers::Record;
use calls::Refusal;
use layouts::{MOST_SECTORS, TrackNumbers};
use marks::Image;

mod blocks;
mod refusals;
mod tracks;

// What a read hands back.
#[derive(Clone, Copy)]
pub struct Reading {
    // the sectors of the track
    pub sectors: usize,
    // by sector number, from 1 on; past the count each is as if nothing were known
    pub records: [Record; MOST_SECTORS],
    // the identifiers whose EDC is wrong
    pub bad: u32,
    // the identifiers of other tracks
    pub foreign: u32,
}

// Reads a track: `area` has a slot for each sector number, sectors × N bytes in all. A refused sector's slot is all zero, and so is the whole
// area of a refused call, of any length.
#[tactic(auto, unfolding(crate::specs::Outcomes::read_answer, crate::specs::Outcomes::read_area, calls::specs::Refusals::told, verdicts::specs::Tests::by))]
pub fn read(numbers: TrackNumbers, image: &[u8], area: &mut [u8]) -> Result<Reading, Refusal>
    ensures { Reads numbers.layout numbers.cylinder numbers.side image.now (length area.old) result area.new }
{
    let tested = refusals::read_tested(numbers, image.len(), area.len());
    cells::clear(area);
    tested?;
    let image = Image { bytes: image };
    Ok(tracks::read_track(numbers.track(), image, area))
}
