// The refusals of a request, in the papers' order: the first test that applies. What a request says by itself is tested before the image is walked.
#![tactic(auto, unfolding(crate::specs::Refusals::contents_tests, crate::specs::Refusals::call_tests, locate::specs::Outcomes::locate_tests, layouts::specs::Refusals::reading_tests, layouts::specs::Refusals::track_tests, calls::specs::Refusals::told, verdicts::specs::Tests::refusal, verdicts::specs::Tests::by))]

ghost use Rattle.std.specs.Prelude.{◌≡◌, ◌≤◌, ◌<◌};
ghost use Rattle.calls.specs.Refusals.{told};
ghost use Rattle.verdicts.specs.Tests.{refusal, by};
ghost use Rattle.request.specs.Refusals.{contents_tests, call_tests, cell_of, place_tests};
ghost use Rattle.request.specs.Outcomes.{first_plan};

use calls::Refusal;
use layouts::{Layout, TrackNumbers};
use locate::Located;
use rewrite::Plan;
use walk::Block;

// 5, 6, 7: the sector's new bytes and their mark.
fn contents_tests(layout: Layout, cylinder: u32, mark: u32, contents: &[u8]) -> Result<(), Refusal>
    requires { 1 ≤ layout.size }
    ensures { result ≡ told (refusal (contents_tests layout cylinder mark contents.now)) }
{
    calls::area_length(layout.size, contents.len())?;
    calls::mark_byte(mark)?;
    calls::control_record(cylinder, mark, contents[0])
}

// 2, 3, 4, 1, 9 and those: the tests of a request that need no walk. `length` is that of the image.
pub(crate) fn call_tests(
    numbers: TrackNumbers,
    sector: u32,
    mark: u32,
    contents: &[u8],
    length: usize,
) -> Result<(), Refusal>
    ensures { result ≡ told (refusal (call_tests numbers.layout numbers.cylinder numbers.side sector mark contents.now length)) }
{
    numbers.tested_with_image(length)?;
    let taken = layouts::layout_of(numbers.layout);
    calls::sector_number(taken.sectors, sector)?;
    contents_tests(taken, numbers.cylinder, mark, contents)
}

// 10 and 11: the plan for the block that the walk located.
#[tactic(auto, unfolding(crate::specs::Refusals::is_within, crate::specs::Refusals::cell_of, crate::specs::Refusals::place_tests, verdicts::specs::Tests::refusal, verdicts::specs::Tests::by))]
pub(crate) fn noted(layout: u32, located: Located) -> Result<Plan, Refusal>
    requires { cell_of located < 4294967296 }
    ensures { result ≡ by (refusal (place_tests located)) (Ok (first_plan layout located)) Err }
{
    let Located::Single(block) = located else {
        return Err(Refusal::Unreadable);
    };
    let Block::Within(cell) = block else {
        return Err(Refusal::Unreadable);
    };
    if cell % 8 != 0 {
        return Err(Refusal::OffBoundary);
    }
    Ok(Plan {
        layout,
        place: cell as u32,
        made: 0,
    })
}
