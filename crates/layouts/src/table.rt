// The four layouts of 01's table, a type for each, which carries its own constants; the function of the trait makes of them the value that calls
// pass on. What the layouts of a mode share stands on the type of their clause.
ghost use Rattle.std.specs.Prelude.{ℕ};
ghost use Rattle.layouts.specs.Layouts.{layout0, layout1, layout2, layout3};
ghost use Rattle.layouts.specs.Outcomes.{IsLayout};

use super::Layout;
use super::clauses::{Clause, Fm, Mfm};

// A layout that has a number.
pub trait Numbered {
    type Clause: Clause;

    ghost SECTORS: { ℕ };

    ghost SIZE: { ℕ };

    ghost FOURTH: { ℕ };

    ghost BLOCK_GAP: { ℕ };

    ghost TRACK_GAP: { ℕ };

    ghost AREA_BYTES: { ℕ };

    const SECTORS: usize;

    const SIZE: usize;

    const FOURTH: u8;

    const BLOCK_GAP: usize;

    const TRACK_GAP: usize;

    const AREA_BYTES: usize;

    // The constants as a value.
    fn layout() -> Layout
        ensures { IsLayout (record {
          mode = Self.Clause.MODE;
          sectors = SECTORS;
          size = SIZE;
          fourth = FOURTH;
          lead = Self.Clause.LEAD;
          sync = Self.Clause.SYNC;
          index_gap = Self.Clause.INDEX_GAP;
          identifier_gap = Self.Clause.IDENTIFIER_GAP;
          block_gap = BLOCK_GAP;
          track_gap = TRACK_GAP;
          track_bytes = Self.Clause.TRACK_BYTES;
          image_bytes = Self.Clause.IMAGE_BYTES;
          area_bytes = AREA_BYTES;
        }) result }
    {
        Layout {
            mode: Self::Clause::MODE,
            sectors: Self::SECTORS,
            size: Self::SIZE,
            fourth: Self::FOURTH,
            lead: Self::Clause::LEAD,
            sync: Self::Clause::SYNC,
            index_gap: Self::Clause::INDEX_GAP,
            identifier_gap: Self::Clause::IDENTIFIER_GAP,
            block_gap: Self::BLOCK_GAP,
            track_gap: Self::TRACK_GAP,
            track_bytes: Self::Clause::TRACK_BYTES,
            image_bytes: Self::Clause::IMAGE_BYTES,
            area_bytes: Self::AREA_BYTES,
        }
    }
}

// Layout 0: FM, the track 00 of side 0.
#[derive(Clone, Copy)]
pub struct Layout0 {}

impl Numbered for Layout0 {
    type Clause = Fm;

    ghost SECTORS = { layout0.sectors };

    ghost SIZE = { layout0.size };

    ghost FOURTH = { layout0.fourth };

    ghost BLOCK_GAP = { layout0.block_gap };

    ghost TRACK_GAP = { layout0.track_gap };

    ghost AREA_BYTES = { layout0.area_bytes };

    // 4.8
    const SECTORS: usize = 26;

    // 5.4.2
    const SIZE: usize = 128;

    // 5.2.2.3
    const FOURTH: u8 = 0x00;

    // 5.5
    const BLOCK_GAP: usize = 27;

    // 5.6
    const TRACK_GAP: usize = 247;

    // 4.11
    const AREA_BYTES: usize = Self::SECTORS * Self::SIZE;
}

// Layout 1: MFM, 26 sectors of 256 data bytes.
#[derive(Clone, Copy)]
pub struct Layout1 {}

impl Numbered for Layout1 {
    type Clause = Mfm;

    ghost SECTORS = { layout1.sectors };

    ghost SIZE = { layout1.size };

    ghost FOURTH = { layout1.fourth };

    ghost BLOCK_GAP = { layout1.block_gap };

    ghost TRACK_GAP = { layout1.track_gap };

    ghost AREA_BYTES = { layout1.area_bytes };

    // table 5
    const SECTORS: usize = 26;

    // table 5
    const SIZE: usize = 256;

    // table 5
    const FOURTH: u8 = 0x01;

    // table 7
    const BLOCK_GAP: usize = 54;

    // table 8
    const TRACK_GAP: usize = 598;

    // 4.11
    const AREA_BYTES: usize = Self::SECTORS * Self::SIZE;
}

// Layout 2: MFM, 15 sectors of 512 data bytes.
#[derive(Clone, Copy)]
pub struct Layout2 {}

impl Numbered for Layout2 {
    type Clause = Mfm;

    ghost SECTORS = { layout2.sectors };

    ghost SIZE = { layout2.size };

    ghost FOURTH = { layout2.fourth };

    ghost BLOCK_GAP = { layout2.block_gap };

    ghost TRACK_GAP = { layout2.track_gap };

    ghost AREA_BYTES = { layout2.area_bytes };

    // table 5
    const SECTORS: usize = 15;

    // table 5
    const SIZE: usize = 512;

    // table 5
    const FOURTH: u8 = 0x02;

    // table 7
    const BLOCK_GAP: usize = 84;

    // table 8
    const TRACK_GAP: usize = 400;

    // 4.11
    const AREA_BYTES: usize = Self::SECTORS * Self::SIZE;
}

// Layout 3: MFM, 8 sectors of 1 024 data bytes.
#[derive(Clone, Copy)]
pub struct Layout3 {}

impl Numbered for Layout3 {
    type Clause = Mfm;

    ghost SECTORS = { layout3.sectors };

    ghost SIZE = { layout3.size };

    ghost FOURTH = { layout3.fourth };

    ghost BLOCK_GAP = { layout3.block_gap };

    ghost TRACK_GAP = { layout3.track_gap };

    ghost AREA_BYTES = { layout3.area_bytes };

    // table 5
    const SECTORS: usize = 8;

    // table 5
    const SIZE: usize = 1024;

    // table 5
    const FOURTH: u8 = 0x03;

    // table 7
    const BLOCK_GAP: usize = 116;

    // table 8
    const TRACK_GAP: usize = 654;

    // 4.11
    const AREA_BYTES: usize = Self::SECTORS * Self::SIZE;
}
