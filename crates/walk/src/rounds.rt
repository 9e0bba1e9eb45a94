// The parts of a round: the address behind an identifier mark, and the block that an accepted identifier claims.
ghost use Rattle.std.specs.Prelude.{◌≡◌, ◌*◌, ◌≤◌, length};
ghost use Rattle.cells.specs.Cells.{cell};
ghost use Rattle.walk.specs.Walk.{reach};
ghost use Rattle.walk.specs.Turns.{AddressAt, is_ours, block_of};

use super::head::Head;
use super::{Block, Event};
use cells::Mode;
use layouts::{Layout, Track};
use marks::{Image, Mark};
use search::EITHER_MARKS;

// The four address bytes, and what the six bytes behind the identifier mark tell together.
#[derive(Clone, Copy)]
pub(crate) struct Address {
    pub cylinder: u8,
    pub side: u8,
    pub sector: u8,
    pub fourth: u8,
    // the register once the mark and all six bytes have entered it
    pub register: u16,
    // how many clock cells of the six bytes are doubtful; it stands in no record
    pub clocks: u32,
}

// How many cells after the address EDC a block's mark may begin.
fn reach_of(mode: Mode) -> usize
    ensures { (result ≡ reach mode) × (result ≤ 1088) }
{
    match mode {
        Mode::Fm => 544,
        Mode::Mfm => 1088,
    }
}

// The address at `place`, the cell after an identifier mark. Each byte is read after the last bit of the one before it, the first after the
// mark's.
pub(crate) fn address_at(mode: Mode, image: Image, place: usize) -> Address
    requires { place ≤ 4294967296 }
    ensures { AddressAt mode (cell image.entry.bytes.now) place result.cylinder result.side result.sector result.fourth result.register result.clocks }
{
    let head = Head { image, cell: place };
    let cylinder = head.byte(0, mode, marks::last_bit(Mark::Identifier));
    let side = head.byte(16, mode, cylinder.byte % 2);
    let sector = head.byte(32, mode, side.byte % 2);
    let fourth = head.byte(48, mode, sector.byte % 2);
    let upper = head.byte(64, mode, fourth.byte % 2);
    let lower = head.byte(80, mode, upper.byte % 2);
    let clocks = cylinder.clocks
        + side.clocks
        + sector.clocks
        + fourth.clocks
        + upper.clocks
        + lower.clocks;
    let start = marks::register_after(mode, Mark::Identifier);
    let one = edc::byte_entered(start, cylinder.byte);
    let two = edc::byte_entered(one, side.byte);
    let three = edc::byte_entered(two, sector.byte);
    let four = edc::byte_entered(three, fourth.byte);
    let five = edc::byte_entered(four, upper.byte);
    Address {
        cylinder: cylinder.byte,
        side: side.byte,
        sector: sector.byte,
        fourth: fourth.byte,
        register: edc::byte_entered(five, lower.byte),
        clocks,
    }
}

// Whether the address is of this track.
pub(crate) fn is_ours(track: Track, address: Address) -> bool
    ensures { result ≡ is_ours track address.cylinder address.side address.sector address.fourth }
{
    let layout = track.layout;
    (address.cylinder as u32 == track.cylinder)
        & (address.side as u32 == track.side)
        & (address.fourth == layout.fourth)
        & (1 <= address.sector)
        & (address.sector as usize <= layout.sectors)
}

// Steps 3 and 4: what an accepted identifier of `sector` gives; `after` is the cell behind the address EDC.
pub(crate) fn block_of(
    layout: Layout,
    image: Image,
    sector: usize,
    after: usize,
) -> Option<(Event, usize)>
    requires { after ≤ 4294967296 }
    ensures { result ≡ block_of layout (cell image.entry.bytes.now) (8 * length image.entry.bytes.now) sector after }
{
    let mode = layout.mode;
    let end = 8 * image.bytes.len();
    let to = after + reach_of(mode) + 1;
    let Some((place, mark)) = Head { image, cell: after }.next_mark(mode, EITHER_MARKS, to) else {
        return Some((Event::Accepted(sector, Block::Missing), after));
    };
    if !marks::is_block(mark) {
        return Some((Event::Accepted(sector, Block::Missing), after));
    }
    let field = place + 16 * marks::mark_bytes(mode);
    let room = (end - field) / 16;
    if 2 <= room {
        if layout.size <= room - 2 {
            let next = field + 16 * (layout.size + 2);
            return Some((Event::Accepted(sector, Block::Within(place)), next));
        }
    }
    Some((Event::Accepted(sector, Block::Beyond(place)), end))
}
