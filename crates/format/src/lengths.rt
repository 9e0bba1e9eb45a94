// How long the parts of a track are, in track bytes.
#![tactic(auto, unfolding(layouts::specs::Layouts::sector_fields, layouts::specs::Layouts::fields))]

ghost use Rattle.std.specs.Prelude.{◌≡◌, ◌*◌, ◌≤◌};
ghost use Rattle.layouts.specs.Layouts.{fields, sector_fields};

use layouts::Layout;

// The track bytes of a sector.
pub(crate) fn sector_fields(layout: Layout) -> usize
    requires { 2 * sector_fields layout ≤ 9223372036854775807 }
    ensures { result ≡ sector_fields layout }
{
    let mode = layout.mode;
    let mark = marks::mark_bytes(mode);
    (layout.sync + mark + 4 + 2 + layout.identifier_gap)
        + (layout.sync + mark + layout.size + 2 + layout.block_gap)
}

// What the layout's fields add up to.
pub(crate) fn fields_of(layout: Layout) -> usize
    requires { (2 * fields layout ≤ 9223372036854775807) × (1 ≤ layout.sectors) }
    ensures { result ≡ fields layout }
{
    let mode = layout.mode;
    let mark = marks::mark_bytes(mode);
    let sectors = layout.sectors * sector_fields(layout);
    layout.lead + layout.sync + mark + layout.index_gap + sectors + layout.track_gap
}
