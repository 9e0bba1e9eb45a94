// The reader's walk over a whole track, which keeps every sector's record and slot.
ghost use Rattle.std.specs.Prelude.{◌≡◌, ◌*◌, length, replicate};
ghost use Rattle.cells.specs.Cells.{cell};
ghost use Rattle.walk.specs.Outcomes.{met};
ghost use Rattle.read.specs.Records.{area_of};
ghost use Rattle.read.specs.Turns.{Modest, LentAll, Enters, next};
ghost use Rattle.read.specs.Outcomes.{reading};

use super::Reading;
use super::blocks::next_record;
use answers::{Answer, Record};
use layouts::Track;
use marks::Image;
use walk::{Block, Event};

// A sector's record, and its slot in the area, once one more of its identifiers was accepted.
#[tactic(auto, using(layouts::proofs::Layouts::slot_room))]
fn enter(
    track: Track,
    image: Image,
    before: Answer,
    sector: usize,
    block: Block,
    area: &mut [u8],
) -> Record
    requires { LentAll track image.bytes.now sector block area.old }
    ensures { Enters (next track (cell image.entry.bytes.now) (8 * length image.entry.bytes.now) before block) track.layout.size sector area.old result area.new }
{
    let layout = track.layout;
    let start = (sector - 1) * layout.size;
    let end = start + layout.size;
    next_record(track, image, before, block, &mut area[start..end])
}

// The walk, on a track that has passed the tests. The area comes in all zero.
pub(crate) fn read_track(track: Track, image: Image, area: &mut [u8]) -> Reading
    requires { Modest track.layout × (area.old ≡ replicate (track.layout.sectors * track.layout.size) 0) }
    ensures { (result ≡ reading track image.entry.bytes.now) × (area.new ≡ area_of track (cell image.entry.bytes.now) (8 * length image.entry.bytes.now) (met track image.entry.bytes.now)) }
{
    let mut records = answers::unread_records();
    // in this order, in which the back end holds the bad ones in a register: noise is full of them
    let mut foreign: u32 = 0;
    let mut bad: u32 = 0;
    for event in walk::met(track, image) {
        match event {
            Event::Bad => {
                bad += 1;
            }
            Event::Foreign => {
                foreign += 1;
            }
            Event::Accepted(sector, block) => {
                let before = records[sector - 1].answer;
                let after = enter(track, image, before, sector, block, area);
                records[sector - 1] = after;
            }
        }
    }
    let layout = track.layout;
    Reading {
        sectors: layout.sectors,
        records,
        bad,
        foreign,
    }
}
