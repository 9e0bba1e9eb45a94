// The pick from two passes, for callers that hold numbers: the number of what was picked, its record, and where its bytes are.
ghost use Rattle.std.specs.Prelude.{◌≡◌, IfOk};
ghost use Rattle.layouts.specs.Layouts.{layout_of};
ghost use Rattle.station.specs.Picks.{chosen_record, pick_number, handed_on, slot_part, choice_part, part_of, There, Taken};

use super::records::{WIDTH, record_number, record_numbers};
use answers::Record;
use calls::Refusal;
use pick::Choice;

// The record that goes with a choice.
fn chosen_record(choice: Choice) -> Record
    ensures { result ≡ chosen_record choice }
{
    match choice {
        Choice::First(record) => record,
        Choice::Second(record) => record,
        Choice::Neither(record) => record,
    }
}

// The number of what was picked: its answer's, or the refusal's.
pub(crate) fn pick_number(picked: Result<Choice, Refusal>) -> u8
    ensures { result ≡ pick_number picked }
{
    match picked {
        Ok(choice) => record_number(chosen_record(choice)),
        Err(refusal) => u8::from(refusal),
    }
}

// The record that is handed on, in numbers; zeros where the call is refused.
pub(crate) fn handed_on(picked: Result<Choice, Refusal>) -> [u32; WIDTH]
    ensures { result ≡ handed_on picked }
{
    match picked {
        Ok(choice) => record_numbers(chosen_record(choice)),
        Err(_) => [0; WIDTH],
    }
}

// The slot of a sector that there is, in a pass's area: the pass, its first byte and its bytes.
fn slot_part(layout: u32, sector: u32, pass: u32) -> [u32; 3]
    requires { There sector }
    ensures { result ≡ slot_part (layout_of layout) sector pass }
{
    let taken = layouts::layout_of(layout);
    let size = taken.size as u32;
    [pass, (sector - 1) * size, size]
}

// Where the bytes of a choice are; zeros where no pass is taken.
fn choice_part(layout: u32, sector: u32, choice: Choice) -> [u32; 3]
    requires { Taken sector choice }
    ensures { result ≡ choice_part (layout_of layout) sector choice }
{
    match choice {
        Choice::First(_) => slot_part(layout, sector, 1),
        Choice::Second(_) => slot_part(layout, sector, 2),
        Choice::Neither(_) => [0; 3],
    }
}

// The same of what was picked; zeros too where the call is refused.
pub(crate) fn part_of(layout: u32, sector: u32, picked: Result<Choice, Refusal>) -> [u32; 3]
    requires { IfOk picked (Taken sector) }
    ensures { result ≡ part_of (layout_of layout) sector picked }
{
    match picked {
        Ok(choice) => choice_part(layout, sector, choice),
        Err(_) => [0; 3],
    }
}
