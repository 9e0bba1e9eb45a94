// The pick from two passes over one track.
ghost use Rattle.std.specs.Prelude.{◌≡◌, ◌*◌, ◌≤◌, length};
ghost use Rattle.layouts.specs.Layouts.{most_sectors, slot_in};
ghost use Rattle.answers.specs.Answers.{record_at};
ghost use Rattle.pick.specs.Picks.{choice, stretch_in};

use super::Choice;
use answers::Record;
use layouts::{Layout, MOST_SECTORS};

// A pass over a track: the area that `read` has filled, with its records.
#[derive(Clone, Copy)]
pub struct Pass<'a> {
    pub area: &'a [u8],
    pub records: [Record; MOST_SECTORS],
}

impl<'a> Pass<'a> {
    // The record of a sector that there is.
    pub(crate) fn record(self, sector: u32) -> Record
        requires { (1 ≤ sector) × (sector ≤ most_sectors) }
        ensures { result ≡ record_at self.entry.records sector }
    {
        self.records[sector as usize - 1]
    }

    // The slot of a sector that there is.
    fn slot(self, layout: Layout, sector: u32) -> &'a [u8]
        requires { (1 ≤ sector) × (sector ≤ layout.sectors) × (length self.area.now ≡ layout.sectors * layout.size) }
        ensures { result.now ≡ slot_in layout.size sector self.entry.area.now }
    {
        let start = (sector as usize - 1) * layout.size;
        let end = start + layout.size;
        &self.area[start..end]
    }
}

// The pass whose record carries bytes, the first before the second.
pub(crate) fn chosen_pass(first: Record, second: Record) -> Choice
    ensures { result ≡ choice first second }
{
    if answers::carries_bytes(first.answer) {
        return Choice::First(first);
    }
    if answers::carries_bytes(second.answer) {
        return Choice::Second(second);
    }
    Choice::Neither(first)
}

// The part that goes with what was picked: that pass's slot of the sector, or an empty one.
pub(crate) fn stretch<'a>(
    layout: Layout,
    sector: u32,
    first: Pass<'a>,
    second: Pass<'a>,
    picked: Choice,
) -> &'a [u8]
    requires { (1 ≤ sector) × (sector ≤ layout.sectors) × (length first.area.now ≡ layout.sectors * layout.size) × (length second.area.now ≡ layout.sectors * layout.size) }
    ensures { result.now ≡ stretch_in layout sector first.entry.area.now second.entry.area.now picked }
{
    match picked {
        Choice::First(_) => first.slot(layout, sector),
        Choice::Second(_) => second.slot(layout, sector),
        Choice::Neither(_) => &first.area[0..0],
    }
}
