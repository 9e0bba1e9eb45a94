// The walk that looks for the block of one sector.
ghost use Rattle.std.specs.Prelude.{◌≡◌, ◌*◌};
ghost use Rattle.walk.specs.Events.{blocks};
ghost use Rattle.locate.specs.Outcomes.{located};
ghost use Rattle.walk.specs.Outcomes.{met};
ghost use Rattle.locate.specs.Turns.{located_next, located_after};

use super::Located;
use layouts::Track;
use marks::Image;
use walk::{Block, Event};

// Where the sector's block is, once one more of its identifiers was accepted.
fn located_next(before: Located, block: Block) -> Located
    ensures { result ≡ located_next before block }
{
    match before {
        Located::Unmet => Located::Single(block),
        Located::Single(_) => Located::Doubled,
        Located::Doubled => Located::Doubled,
    }
}

// The same, once the walk has met an event more.
fn located_after(sector: usize, before: Located, event: Event) -> Located
    ensures { result ≡ located_after sector before event }
{
    match event {
        Event::Bad => before,
        Event::Foreign => before,
        Event::Accepted(number, block) => {
            if number == sector {
                return located_next(before, block);
            }
            before
        }
    }
}

// The walk over an image, for the sake of one sector.
pub(crate) fn locate_block(track: Track, sector: usize, image: Image) -> Located
    ensures { result ≡ located (blocks sector (met track image.entry.bytes.now)) }
{
    let mut found = Located::Unmet;
    for event in walk::met(track, image) {
        found = located_after(sector, found, event);
    }
    found
}
