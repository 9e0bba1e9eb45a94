// The walk over a track's image: from mark to mark, what each identifier is and which block it claims. The reader keeps what the walk meets,
// sector by sector; a request looks for the block of one sector.
#![tactic(auto)]

ghost use Rattle.std.specs.Prelude.{◌≡◌};
ghost use Rattle.std.specs.Iterator.{item_count};
ghost use Rattle.walk.specs.Outcomes.{IsRound, IsNext, IsWalk, met, left};

use head::Head;
use layouts::Track;
use marks::Image;
use rounds::{address_at, block_of, is_ours};
use search::IDENTIFIER_MARKS;

mod head;
mod rounds;

// What an accepted identifier gave. A place is the cell at which a block's mark begins.
#[derive(Clone, Copy, Debug, PartialEq, Eq)]
pub enum Block {
    // no data block
    Missing,
    // a block that passes the end of the image
    Beyond(usize),
    // a block within the image
    Within(usize),
}

// What the walk meets.
#[derive(Clone, Copy, Debug, PartialEq, Eq)]
pub enum Event {
    // an identifier whose EDC is wrong
    Bad,
    // an identifier of another track
    Foreign,
    // an identifier of this track: its sector number, and what it gave
    Accepted(usize, Block),
}

// One round of the walk, from `place` on: the next identifier mark, its address, and the block that follows. It gives what the walk meets, and
// the cell at which it goes on, or nothing where the walk ends.
pub fn next_round(track: Track, image: Image, place: usize) -> Option<(Event, usize)>
    ensures { IsRound track image.entry.bytes.now place result }
{
    let layout = track.layout;
    let mode = layout.mode;
    let end = 8 * image.bytes.len();
    let Some((mark, _)) = Head { image, cell: place }.next_mark(mode, IDENTIFIER_MARKS, end) else {
        return None;
    };
    let field = mark + 16 * marks::mark_bytes(mode);
    let after = field + 96;
    if end < after {
        return None;
    }
    let address = address_at(mode, image, field);
    if address.register != 0 {
        return Some((Event::Bad, field));
    }
    if !is_ours(track, address) {
        return Some((Event::Foreign, after));
    }
    block_of(layout, image, address.sector as usize, after)
}

// The walk, at the cell of an image from which it goes on: it gives what it meets, one after the other.
#[derive(Clone, Copy)]
pub struct Walk<'a> {
    pub track: Track,
    pub image: Image<'a>,
    pub place: usize,
}

impl<'a> Iterator for Walk<'a> {
    type Item = Event;

    ghost next_gives = { IsNext };

    ghost remaining = { item_count left };

    #[tactic(auto, using(crate::proofs::Walking::walk_ends, crate::proofs::Walking::walk_meets))]
    fn next(&mut self) -> Option<Event> {
        let (event, next) = next_round(self.track, self.image, self.place)?;
        self.place = next;
        Some(event)
    }
}

// The walk over a track's image, from its first cell on.
pub fn met<'a>(track: Track, image: Image<'a>) -> Walk<'a>
    ensures is { IsWalk track image.entry result }
    ensures all { left result ≡ met track image.entry.bytes.now }
{
    Walk {
        track,
        image,
        place: 0,
    }
}
