// Where a sector's block is: the walk over a track, for the sake of one sector.
#![tactic(auto)]

ghost use Rattle.locate.specs.Outcomes.{Locates};

use calls::Refusal;
use layouts::TrackNumbers;
use marks::Image;
use walk::Block;

mod locating;
mod refusals;

// Where a sector's block is.
#[derive(Clone, Copy)]
pub enum Located {
    // no identifier of the sector is accepted
    Unmet,
    // one is, and gave this
    Single(Block),
    // more than one is
    Doubled,
}

// Where the block of a sector is, on a track that the caller names.
#[tactic(auto, unfolding(calls::specs::Refusals::told, verdicts::specs::Tests::by))]
pub fn locate(numbers: TrackNumbers, sector: u32, image: &[u8]) -> Result<Located, Refusal>
    ensures { Locates numbers.layout numbers.cylinder numbers.side sector image.now result }
{
    refusals::tested(numbers, image.len(), sector)?;
    let image = Image { bytes: image };
    Ok(locating::locate_block(numbers.track(), sector as usize, image))
}
