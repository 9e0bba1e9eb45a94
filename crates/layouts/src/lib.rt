// The layouts of a track, which track takes which, and the tests of a track's numbers. A layout is a value made of its type's constants, and a
// track a layout with its place on the disk.
#![tactic(auto, unfolding(crate::specs::Refusals::track_tests, crate::specs::Refusals::reading_tests, calls::specs::Refusals::told, verdicts::specs::Tests::refusal, verdicts::specs::Tests::by))]

ghost use Rattle.std.specs.Prelude.{◌≡◌};
ghost use Rattle.layouts.specs.Tracks.{allowed};
ghost use Rattle.layouts.specs.Outcomes.{IsGapByte, IsLayoutOf, IsTrack, IsLayoutNumber, IsTrackNumbers, IsTrackAndImage};

use calls::Refusal;
use cells::Mode;

mod clauses;
mod table;

// The type of each clause and of each layout, with its constants.
pub use clauses::{Clause, Fm, Mfm};
pub use table::{Layout0, Layout1, Layout2, Layout3, Numbered};

// The MFM layouts are numbered from 1 to this.
pub const HIGHEST_MFM: u32 = 3;

// The highest layout number.
pub const HIGHEST: u32 = HIGHEST_MFM;

// The most sectors that a layout has.
pub const MOST_SECTORS: usize = 26;

// The highest cylinder number.
pub const HIGHEST_CYLINDER: u32 = 74;

// The highest side number.
pub const HIGHEST_SIDE: u32 = 1;

// A layout's constants. Gaps and track are counted in data bytes, which take two image bytes each.
#[derive(Clone, Copy)]
pub struct Layout {
    // the mode of recording
    pub mode: Mode,
    // the sectors of the track
    pub sectors: usize,
    // the data bytes of a sector
    pub size: usize,
    // the fourth address byte
    pub fourth: u8,
    // the gap before the index mark
    pub lead: usize,
    // the 00 bytes before each mark
    pub sync: usize,
    // the gap after the index mark
    pub index_gap: usize,
    // the gap after each identifier
    pub identifier_gap: usize,
    // the gap after each data block
    pub block_gap: usize,
    // the gap at the track's end
    pub track_gap: usize,
    // the bytes of the track
    pub track_bytes: usize,
    // the bytes of the track's image
    pub image_bytes: usize,
    // the data bytes of all sectors
    pub area_bytes: usize,
}

// A track, as a call names it.
#[derive(Clone, Copy)]
pub struct Track {
    // its layout
    pub layout: Layout,
    // its cylinder number
    pub cylinder: u32,
    // its side number
    pub side: u32,
}

// The byte that fills the mode's gaps.
pub fn gap_byte(mode: Mode) -> u8
    ensures { IsGapByte mode result }
{
    match mode {
        Mode::Fm => 0xFF,
        Mode::Mfm => 0x4E,
    }
}

// The layout of a number. Above the highest there is none, and the calls are refused; layout 0 fills in.
#[tactic(auto, unfolding(crate::specs::Layouts::layout_of))]
pub fn layout_of(layout: u32) -> Layout
    ensures { IsLayoutOf layout result }
{
    match layout {
        1 => Layout1::layout(),
        2 => Layout2::layout(),
        3 => Layout3::layout(),
        _ => Layout0::layout(),
    }
}

// The number of a layout where no track is named: refused 4.
pub fn layout_number(layout: u32) -> Result<(), Refusal>
    ensures { IsLayoutNumber layout result }
{
    calls::tested(HIGHEST < layout, Refusal::LayoutNumber)
}

// The numbers by which a call names a track.
#[derive(Clone, Copy, Debug, PartialEq, Eq)]
pub struct TrackNumbers {
    pub layout: u32,
    pub cylinder: u32,
    pub side: u32,
}

impl TrackNumbers {
    // The track that they name.
    pub fn track(self) -> Track
        ensures { IsTrack self.layout self.cylinder self.side result }
    {
        Track {
            layout: layout_of(self.layout),
            cylinder: self.cylinder,
            side: self.side,
        }
    }

    // Whether the track takes the layout.
    #[tactic(auto, unfolding(crate::specs::Tracks::allowed))]
    fn is_allowed(self) -> bool
        ensures { result ≡ allowed self.layout self.cylinder self.side }
    {
        (self.cylinder == 0) & (self.side == 0) & (self.layout == 0)
            | (self.cylinder == 0) & (self.side == 1) & (self.layout == 1)
            | (self.cylinder != 0) & (1 <= self.layout) & (self.layout <= HIGHEST_MFM)
    }

    // Their tests: refused 2, 3 or 4.
    pub fn tested(self) -> Result<(), Refusal>
        ensures { IsTrackNumbers self.layout self.cylinder self.side result }
    {
        if HIGHEST_CYLINDER < self.cylinder {
            return Err(Refusal::CylinderNumber);
        }
        if HIGHEST_SIDE < self.side {
            return Err(Refusal::SideNumber);
        }
        calls::tested(!self.is_allowed(), Refusal::LayoutNumber)
    }

    // The same, and the length of the track's image that is read or rewritten: refused 2, 3, 4 or 1.
    pub fn tested_with_image(self, length: usize) -> Result<(), Refusal>
        ensures { IsTrackAndImage self.layout self.cylinder self.side length result }
    {
        self.tested()?;
        calls::image_length(length)
    }
}
