// The refusals of read, in the papers' order: the first test that applies.
#![tactic(auto, unfolding(crate::specs::Outcomes::read_tests, layouts::specs::Refusals::reading_tests, layouts::specs::Refusals::track_tests, calls::specs::Refusals::told, verdicts::specs::Tests::refusal, verdicts::specs::Tests::by))]

ghost use Rattle.std.specs.Prelude.{◌≡◌};
ghost use Rattle.calls.specs.Refusals.{told};
ghost use Rattle.verdicts.specs.Tests.{refusal};
ghost use Rattle.read.specs.Outcomes.{read_tests};

use calls::Refusal;
use layouts::TrackNumbers;

// 2, 3, 4, 1, 5: the track, the image's length and the area's.
pub(crate) fn read_tested(numbers: TrackNumbers, image: usize, area: usize) -> Result<(), Refusal>
    ensures { result ≡ told (refusal (read_tests numbers.layout numbers.cylinder numbers.side image area)) }
{
    numbers.tested_with_image(image)?;
    let taken = layouts::layout_of(numbers.layout);
    calls::area_length(taken.area_bytes, area)
}
