// The refusals of a step, in the papers' order: the first test that applies.
#![tactic(auto, using(crate::proofs::Listed::stores_count), unfolding(crate::specs::Refusals::plan_tests, calls::specs::Refusals::told, verdicts::specs::Tests::refusal, verdicts::specs::Tests::by))]

ghost use Rattle.std.specs.Prelude.{◌≡◌, ◌≤◌, ◌<◌};
ghost use Rattle.calls.specs.Refusals.{told};
ghost use Rattle.verdicts.specs.Tests.{refusal};
ghost use Rattle.rewrite.specs.Refusals.{holds_block, plan_tests};

use super::values::Block;
use calls::Refusal;
use marks::Image;
use search::BLOCK_MARKS;

// Whether a data, control or open mark stands at the plan's place on a byte boundary, with its block within the image.
#[tactic(auto, unfolding(crate::specs::Refusals::holds_block, search::specs::Search::is_standing))]
fn holds_block(block: Block, image: Image) -> bool
    ensures { result ≡ holds_block block.layout image.entry.bytes.now block.plan.place }
{
    let place = block.plan.place as usize;
    if place % 8 != 0 {
        return false;
    }
    if image.bytes.len() < block.end() {
        return false;
    }
    search::mark_at(block.layout.mode, BLOCK_MARKS, image, place / 8).is_some()
}

// 4, 1, 5, 6, 13, 12: the tests of a step.
pub(crate) fn plan_tests(
    block: Block,
    mark: u32,
    contents: &[u8],
    image: &[u8],
) -> Result<(), Refusal>
    ensures { result ≡ told (refusal (plan_tests block.layout block.plan mark contents.now image.now)) }
{
    layouts::layout_number(block.plan.layout)?;
    calls::image_length(image.len())?;
    calls::area_length(block.layout.size, contents.len())?;
    calls::mark_byte(mark)?;
    if !holds_block(block, Image { bytes: image }) {
        return Err(Refusal::NoBlock);
    }
    let count = block.stores(image.len());
    let made = block.plan.made as usize;
    if count <= made {
        return Err(Refusal::Finished);
    }
    Ok(())
}
