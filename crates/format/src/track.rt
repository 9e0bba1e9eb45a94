// The track from its fields: what stands before the first sector, each sector in its own stretch of the image, and the track gap.
ghost use Rattle.std.specs.Prelude.{◌≡◌, ◌+◌, ◌*◌, ◌≤◌, length};
ghost use Rattle.std.proofs.lemmas.List.Edits.{sets};
ghost use Rattle.marks.specs.Marks.{mark_bytes};
ghost use Rattle.layouts.specs.Layouts.{fields, sector_fields, Every};
ghost use Rattle.format.specs.Order.{Numbered, formatted};
ghost use Rattle.format.specs.Aids.{leader, stretch as stretchOf, Writable, Filled};

use super::lengths::sector_fields;
use super::write::{write_body, write_front, write_run};
use layouts::{Layout, Track};
use marks::Mark;

// What stands before the first sector. The answer is the byte behind it.
fn write_leader(layout: Layout, image: &mut [u8]) -> usize
    requires { (2 * (layout.lead + layout.sync + mark_bytes layout.mode + layout.index_gap + 3) ≤ length image.old) × (1 ≤ layout.lead) }
    ensures written { image.new ≡ sets image.old 0 (leader layout) }
    ensures behind { result ≡ 2 * (layout.lead + layout.sync + mark_bytes layout.mode + layout.index_gap) }
{
    let mode = layout.mode;
    let gap = layouts::gap_byte(mode);
    let sync_at = write_run(mode, 0, gap, layout.lead, image, 0);
    let gap_at = write_front(mode, layout.sync, Mark::Index, image, sync_at);
    write_run(mode, 0, gap, layout.index_gap, image, gap_at)
}

// A sector in its own stretch of the image, which it fills whole; its mark and its data are looked up by its number.
fn write_sector(track: Track, number: u8, contents: &[u8], marks: &[u8], stretch: &mut [u8])
    requires { Writable track × Filled track.layout contents.now marks.now × Numbered track.layout number × (length stretch.old ≡ 2 * sector_fields track.layout) }
    ensures { stretch.new ≡ stretchOf track contents.now marks.now number }
{
    let layout = track.layout;
    let mode = layout.mode;
    let address = [
        track.cylinder as u8,
        track.side as u8,
        number,
        layout.fourth,
    ];
    let index = number as usize - 1;
    let from = index * layout.size;
    let to = from + layout.size;
    let mark = marks::mark_of(marks[index]);
    let address_at = write_front(mode, layout.sync, Mark::Identifier, stretch, 0);
    let block_at = write_body(
        mode,
        Mark::Identifier,
        &address,
        layout.identifier_gap,
        stretch,
        address_at,
    );
    let data_at = write_front(mode, layout.sync, mark, stretch, block_at);
    write_body(
        mode,
        mark,
        &contents[from..to],
        layout.block_gap,
        stretch,
        data_at,
    );
}

// The whole track, with the sectors in the order of the lent numbers. Each sector's writer is lent its own stretch of the image.
pub(crate) fn write_track(
    track: Track,
    contents: &[u8],
    marks: &[u8],
    order: &[u8],
    image: &mut [u8],
)
    requires writable { Writable track × Filled track.layout contents.now marks.now × (length image.old ≡ 2 * fields track.layout) }
    requires order_len { (length order.now ≡ track.layout.sectors) × Every (Numbered track.layout) order.now }
    ensures { image.new ≡ formatted track contents.now marks.now order.now }
{
    let layout = track.layout;
    let stretch = 2 * sector_fields(layout);
    let mut start = write_leader(layout, image);
    for &number in order {
        let end = start + stretch;
        write_sector(track, number, contents, marks, &mut image[start..end]);
        start = end;
    }
    let mode = layout.mode;
    let gap = layouts::gap_byte(mode);
    write_run(mode, gap % 2, gap, layout.track_gap, image, start);
}
