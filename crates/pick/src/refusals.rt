// The refusals of a pick, in the papers' order: the first test that applies.
#![tactic(auto, unfolding(crate::specs::Picks::area_tests, crate::specs::Picks::pick_tests, calls::specs::Refusals::told, verdicts::specs::Tests::refusal, verdicts::specs::Tests::by))]

ghost use Rattle.std.specs.Prelude.{◌≡◌};
ghost use Rattle.calls.specs.Refusals.{told};
ghost use Rattle.verdicts.specs.Tests.{refusal};
ghost use Rattle.pick.specs.Picks.{area_tests, pick_tests};

use calls::Refusal;
use layouts::Layout;

// 9, and 5 of each area.
fn area_tests(layout: Layout, sector: u32, first: usize, second: usize) -> Result<(), Refusal>
    ensures { result ≡ told (refusal (area_tests layout sector first second)) }
{
    calls::sector_number(layout.sectors, sector)?;
    calls::area_length(layout.area_bytes, first)?;
    calls::area_length(layout.area_bytes, second)
}

// 4, 9, 5 of a pick.
pub(crate) fn pick_tested(
    layout: u32,
    sector: u32,
    first: usize,
    second: usize,
) -> Result<(), Refusal>
    ensures { result ≡ told (refusal (pick_tests layout sector first second)) }
{
    layouts::layout_number(layout)?;
    area_tests(layouts::layout_of(layout), sector, first, second)
}
