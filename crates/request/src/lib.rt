// The request for the rewrite of a sector: a plan that notes where its block is, by which the steps then make their stores.
#![tactic(auto)]

ghost use Rattle.request.specs.Outcomes.{Requests};

use calls::Refusal;
use layouts::TrackNumbers;
use rewrite::Plan;

mod refusals;

// Asks for the rewrite of a sector: a plan that notes where its block is. `mark` is FB or F8, and `contents` the sector's new bytes. The image
// is walked once, and only where the call itself is right. (The walk itself refuses no call that has passed the tests before it.)
pub fn request(
    numbers: TrackNumbers,
    sector: u32,
    mark: u32,
    contents: &[u8],
    image: &[u8],
) -> Result<Plan, Refusal>
    ensures { Requests numbers.layout numbers.cylinder numbers.side sector mark contents.now image.now result }
{
    refusals::call_tests(numbers, sector, mark, contents, image.len())?;
    let located = locate::locate(numbers, sector, image)?;
    refusals::noted(numbers.layout, located)
}
