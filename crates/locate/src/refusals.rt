// The refusals of locate, in the papers' order: the first test that applies.
#![tactic(auto, unfolding(crate::specs::Outcomes::locate_tests, layouts::specs::Refusals::reading_tests, layouts::specs::Refusals::track_tests, calls::specs::Refusals::told, verdicts::specs::Tests::refusal, verdicts::specs::Tests::by))]

ghost use Rattle.std.specs.Prelude.{◌≡◌};
ghost use Rattle.calls.specs.Refusals.{told};
ghost use Rattle.verdicts.specs.Tests.{refusal};
ghost use Rattle.locate.specs.Outcomes.{locate_tests};

use calls::Refusal;
use layouts::TrackNumbers;

// 2, 3, 4, 1, 9: the track, the image's length and the sector.
pub(crate) fn tested(numbers: TrackNumbers, image: usize, sector: u32) -> Result<(), Refusal>
    ensures { result ≡ told (refusal (locate_tests numbers.layout numbers.cylinder numbers.side image sector)) }
{
    numbers.tested_with_image(image)?;
    let taken = layouts::layout_of(numbers.layout);
    calls::sector_number(taken.sectors, sector)
}
