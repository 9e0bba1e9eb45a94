// The search for the first mark of given kinds, and the look whether one begins with a byte.
#![tactic(auto)]

ghost use Rattle.search.specs.Outcomes.{IsMarkAt, IsFirstMark};

use cells::Mode;
use marks::{Image, Mark};

mod places;
mod tables;

// The kinds of mark that a search looks for: identifier marks, and the marks of a block, which are data, control and open.
#[derive(Clone, Copy, Debug, PartialEq, Eq)]
pub struct Kinds {
    pub identifier: bool,
    pub block: bool,
}

// The kinds of step 1, those of step 3, and the marks of a block alone.
pub const IDENTIFIER_MARKS: Kinds = Kinds {
    identifier: true,
    block: false,
};

pub const EITHER_MARKS: Kinds = Kinds {
    identifier: true,
    block: true,
};

pub const BLOCK_MARKS: Kinds = Kinds {
    identifier: false,
    block: true,
};

// The mark of the kinds that the byte `at` begins, if one does, with its cell. This looks in no table, as a search does.
pub fn mark_at(mode: Mode, kinds: Kinds, image: Image, at: usize) -> Option<(usize, Mark)>
    ensures { IsMarkAt mode kinds image.entry.bytes.now at result }
{
    if image.bytes.len() < at {
        return None;
    }
    let mark = places::begun(mode, image.bytes, at)?;
    if !places::is_among(kinds, mark) {
        return None;
    }
    Some((8 * at, mark))
}

// The first mark of the kinds that begins at a cell from `from` up to and without `to`, with that cell.
pub fn find(mode: Mode, kinds: Kinds, image: Image, from: usize, to: usize) -> Option<(usize, Mark)>
    ensures { IsFirstMark mode kinds image.entry.bytes.now from to result }
{
    tables::search(tables::table_for(mode, kinds), mode, kinds, image, from, to)
}
