// What a clause of 004 gives to each of its layouts, a type for each clause. Above each number stands where 004 has it; the fields of Layout say what
// it counts. A constant goes with a ghost member of its name, which says in the definitions' words what it is: a clause of a trait names no constant.
ghost use Rattle.std.specs.Prelude.{ℕ};
ghost use Rattle.cells.specs.declared.Mode.{Mode};
ghost use Rattle.layouts.specs.Layouts.{layout0, layout1};

use cells::Mode;

// What a clause of 004 gives to each of its layouts.
pub trait Clause {
    ghost MODE: { Mode };

    ghost LEAD: { ℕ };

    ghost SYNC: { ℕ };

    ghost INDEX_GAP: { ℕ };

    ghost IDENTIFIER_GAP: { ℕ };

    ghost TRACK_BYTES: { ℕ };

    ghost IMAGE_BYTES: { ℕ };

    const MODE: Mode;

    const LEAD: usize;

    const SYNC: usize;

    const INDEX_GAP: usize;

    const IDENTIFIER_GAP: usize;

    const TRACK_BYTES: usize;

    const IMAGE_BYTES: usize;
}

// Clause 5 of 004: FM.
#[derive(Clone, Copy)]
pub struct Fm {}

impl Clause for Fm {
    ghost MODE = { layout0.mode };

    ghost LEAD = { layout0.lead };

    ghost SYNC = { layout0.sync };

    ghost INDEX_GAP = { layout0.index_gap };

    ghost IDENTIFIER_GAP = { layout0.identifier_gap };

    ghost TRACK_BYTES = { layout0.track_bytes };

    ghost IMAGE_BYTES = { layout0.image_bytes };

    // 4.1.1
    const MODE: Mode = Mode::Fm;

    // 5.1
    const LEAD: usize = 40;

    // 5.1, 5.2.1 and 5.4.1
    const SYNC: usize = 6;

    // 5.1
    const INDEX_GAP: usize = 26;

    // 5.3
    const IDENTIFIER_GAP: usize = 11;

    // 01's table
    const TRACK_BYTES: usize = 5208;

    // 16 cells, two image bytes, for each track byte
    const IMAGE_BYTES: usize = 2 * Self::TRACK_BYTES;
}

// Clause 6 of 004: MFM.
#[derive(Clone, Copy)]
pub struct Mfm {}

impl Clause for Mfm {
    ghost MODE = { layout1.mode };

    ghost LEAD = { layout1.lead };

    ghost SYNC = { layout1.sync };

    ghost INDEX_GAP = { layout1.index_gap };

    ghost IDENTIFIER_GAP = { layout1.identifier_gap };

    ghost TRACK_BYTES = { layout1.track_bytes };

    ghost IMAGE_BYTES = { layout1.image_bytes };

    // 4.1.2
    const MODE: Mode = Mode::Mfm;

    // 6.1
    const LEAD: usize = 80;

    // 6.1, 6.2.1 and 6.4.1
    const SYNC: usize = 12;

    // 6.1
    const INDEX_GAP: usize = 50;

    // 6.3
    const IDENTIFIER_GAP: usize = 22;

    // 01's table
    const TRACK_BYTES: usize = 10416;

    // 16 cells, two image bytes, for each track byte
    const IMAGE_BYTES: usize = 2 * Self::TRACK_BYTES;
}
