// The pick of a sector from two passes over one track.
#![tactic(auto)]

ghost use Rattle.pick.specs.Picks.{IsChosen, IsPicked, IsStretch};

use answers::Record;
use calls::Refusal;

mod passes;
mod refusals;

pub use passes::Pass;

// What a pick from two passes takes, with the record that goes with it.
#[derive(Clone, Copy)]
pub enum Choice {
    // the first pass's sector
    First(Record),
    // the second pass's sector
    Second(Record),
    // neither pass answered; the first pass's record
    Neither(Record),
}

// Which of two passes over a track answered for a sector, the first before the second, by the record that each has of it. Of the areas that go
// with the records the lengths are tested.
#[tactic(auto, unfolding(crate::specs::Picks::chosen_of, calls::specs::Refusals::told, verdicts::specs::Tests::by))]
pub fn choose(
    layout: u32,
    sector: u32,
    first_length: usize,
    second_length: usize,
    one: Record,
    two: Record,
) -> Result<Choice, Refusal>
    ensures { IsChosen layout sector first_length second_length one two result }
{
    refusals::pick_tested(layout, sector, first_length, second_length)?;
    Ok(passes::chosen_pass(one, two))
}

// The same, by the passes' areas and all their records.
#[tactic(auto, unfolding(crate::specs::Picks::chosen_of, calls::specs::Refusals::told, verdicts::specs::Tests::by))]
pub fn picked(layout: u32, sector: u32, first: Pass, second: Pass) -> Result<Choice, Refusal>
    ensures { IsPicked layout sector first.entry.area.now first.entry.records second.entry.area.now second.entry.records result }
{
    refusals::pick_tested(layout, sector, first.area.len(), second.area.len())?;
    Ok(passes::chosen_pass(first.record(sector), second.record(sector)))
}

// The bytes of the sector that `picked` takes: that pass's slot, or an empty part.
pub fn pick<'a>(layout: u32, sector: u32, first: Pass<'a>, second: Pass<'a>) -> &'a [u8]
    ensures { IsStretch layout sector first.entry.area.now first.entry.records second.entry.area.now second.entry.records result.now }
{
    match picked(layout, sector, first, second) {
        Ok(choice) => passes::stretch(layouts::layout_of(layout), sector, first, second, choice),
        Err(_) => &first.area[0..0],
    }
}
