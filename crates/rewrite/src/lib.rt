// The rewrite of a sector's block, one store at a time, so that one that is cut off anywhere leaves every other sector as it was. A plan
// notes the block's place; each step is handed the mark and the bytes again, and trusts nothing of its plan.
#![tactic(auto)]

ghost use Rattle.rewrite.specs.Outcomes.{CountsStores, Steps};

use calls::Refusal;
use values::Block;

mod refusals;
mod values;

// A rewrite under way. A step takes any numbers.
#[derive(Clone, Copy)]
pub struct Plan {
    // the layout's number
    pub layout: u32,
    // the cell at which the block's mark begins
    pub place: u32,
    // the stores that are made
    pub made: u32,
}

// One store: the image byte `byte` becomes `value`.
#[derive(Clone, Copy)]
pub struct Store {
    pub byte: usize,
    pub value: u8,
}

// How many stores a rewrite by the plan makes in an image of `bytes` bytes; none above the highest layout.
pub fn stores_in_all(plan: Plan, bytes: usize) -> u32
    ensures { CountsStores plan bytes result }
{
    if layouts::layout_number(plan.layout).is_err() {
        return 0;
    }
    Block::of(plan).stores(bytes) as u32
}

// Makes the store that is next by the plan, and answers the plan for the next step; refused, it changes nothing. `mark` is FB or F8, and `contents`
// the sector's bytes.
pub fn step(plan: Plan, mark: u32, contents: &[u8], image: &mut [u8]) -> Result<Plan, Refusal>
    ensures { Steps plan mark contents.now image.old result image.new }
{
    let block = Block::of(plan);
    refusals::plan_tests(block, mark, contents, image)?;
    let store = values::store_of(block, mark as u8, contents, image);
    image[store.byte] = store.value;
    Ok(Plan {
        layout: plan.layout,
        place: plan.place,
        made: plan.made + 1,
    })
}
