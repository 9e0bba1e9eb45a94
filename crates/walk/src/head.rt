// The reading head: it stands at a cell of the lent image, any cell, byte boundary or not. Each method here is a straight line that leaves the
// work to a function on slice and number.
ghost use Rattle.std.specs.Prelude.{◌≡◌, ◌+◌, ◌*◌, ◌≤◌, length};
ghost use Rattle.cells.specs.Cells.{cell};
ghost use Rattle.cells.specs.Outcomes.{IsReadByte};
ghost use Rattle.search.specs.Search.{first_mark};

use cells::{Mode, ReadByte};
use marks::{Image, Mark};
use search::Kinds;

// The lent image, and the cell at which the head stands.
#[derive(Clone, Copy)]
pub(crate) struct Head<'a> {
    pub image: Image<'a>,
    pub cell: usize,
}

impl<'a> Head<'a> {
    // The data byte `ahead` cells behind the head's, and how many of its clock cells are doubtful after the bit `before`.
    pub(crate) fn byte(self, ahead: usize, mode: Mode, before: u8) -> ReadByte
        requires { (self.cell ≤ 4294967296) × (ahead ≤ 4294967296) }
        ensures { IsReadByte mode before self.entry.image.bytes.now (self.entry.cell + ahead) result }
    {
        cells::read_byte(mode, before, self.image.bytes, self.cell + ahead)
    }

    // The next mark of the kinds from the head on, up to and without the cell `to`.
    pub(crate) fn next_mark(self, mode: Mode, kinds: Kinds, to: usize) -> Option<(usize, Mark)>
        ensures { result ≡ first_mark mode (cell self.entry.image.bytes.now) (8 * length self.entry.image.bytes.now) kinds self.entry.cell to }
    {
        search::find(mode, kinds, self.image, self.cell, to)
    }
}
