// The marks of a track: fixed strings of image bytes, compared at any cell, and all that is known of one: its width, its last byte and
// bit, and the register of the EDC behind it.
#![tactic(auto)]

ghost use Rattle.std.specs.Prelude.{◌≡◌, ◌+◌, ◌*◌, ◌≤◌, length};
ghost use Rattle.cells.specs.Cells.{cell};
ghost use Rattle.cells.specs.declared.Mode.TheVariants.{Fm, Mfm};
ghost use Rattle.marks.specs.Marks.{spells, lies};
ghost use Rattle.marks.specs.Outcomes.{IsString, AreMarkBytes, IsLastByte, IsLastBit, TellsBlock, TellsStanding, IsRegisterAfter, IsMarkOf};

use cells::Mode;

mod image;

pub use image::Image;

// The marks: FC, FE, FB, F8, and the house mark F9 of a rewrite under way.
#[derive(Clone, Copy, Debug, PartialEq, Eq)]
pub enum Mark {
    Index,
    Identifier,
    Data,
    Control,
    Open,
}

// The image bytes of each mark. They stand here alone: whoever writes or compares a mark takes them from here.
pub const INDEX_FM: [u8; 2] = *b"\xF7\x7A";

pub const IDENTIFIER_FM: [u8; 2] = *b"\xF5\x7E";

pub const DATA_FM: [u8; 2] = *b"\xF5\x6F";

pub const CONTROL_FM: [u8; 2] = *b"\xF5\x6A";

pub const OPEN_FM: [u8; 2] = *b"\xF5\x6B";

pub const INDEX_MFM: [u8; 8] = *b"\x52\x24\x52\x24\x52\x24\x55\x52";

pub const IDENTIFIER_MFM: [u8; 8] = *b"\x44\x89\x44\x89\x44\x89\x55\x54";

pub const DATA_MFM: [u8; 8] = *b"\x44\x89\x44\x89\x44\x89\x55\x45";

pub const CONTROL_MFM: [u8; 8] = *b"\x44\x89\x44\x89\x44\x89\x55\x4A";

pub const OPEN_MFM: [u8; 8] = *b"\x44\x89\x44\x89\x44\x89\x55\x49";

// The mark bytes that a call may ask for: of a data record, and of a control record.
pub const DATA_MARK: u32 = 0xFB;

pub const CONTROL_MARK: u32 = 0xF8;

// The string of a mark in FM.
pub fn fm_string(mark: Mark) -> [u8; 2]
    ensures { IsString Fm mark result }
{
    match mark {
        Mark::Index => INDEX_FM,
        Mark::Identifier => IDENTIFIER_FM,
        Mark::Data => DATA_FM,
        Mark::Control => CONTROL_FM,
        Mark::Open => OPEN_FM,
    }
}

// The same in MFM.
pub fn mfm_string(mark: Mark) -> [u8; 8]
    ensures { IsString Mfm mark result }
{
    match mark {
        Mark::Index => INDEX_MFM,
        Mark::Identifier => IDENTIFIER_MFM,
        Mark::Data => DATA_MFM,
        Mark::Control => CONTROL_MFM,
        Mark::Open => OPEN_MFM,
    }
}

// The track bytes of a mark, of sixteen cells each.
pub fn mark_bytes(mode: Mode) -> usize
    ensures { AreMarkBytes mode result }
{
    match mode {
        Mode::Fm => 1,
        Mode::Mfm => 4,
    }
}

// The last image byte of a mark.
pub fn last_byte(mode: Mode, mark: Mark) -> u8
    ensures { IsLastByte mode mark result }
{
    match mode {
        Mode::Fm => fm_string(mark)[1],
        Mode::Mfm => mfm_string(mark)[7],
    }
}

// The last bit of a mark: the last cell of its string, which is a data cell.
pub fn last_bit(mark: Mark) -> u8
    ensures { IsLastBit mark result }
{
    fm_string(mark)[1] % 2
}

// Whether the mark is of a block: a data, control or open mark.
pub fn is_block(mark: Mark) -> bool
    ensures { TellsBlock mark result }
{
    matches!(mark, Mark::Data | Mark::Control | Mark::Open)
}

// Whether the cells from `place` on spell the bytes.
fn spelled(image: &[u8], place: usize, bytes: &[u8]) -> bool
    requires { place + 8 * length bytes.now ≤ 4294967296 }
    ensures { result ≡ spells (cell image.now) place bytes.now }
{
    for (i, byte) in bytes.iter().enumerate() {
        if cells::octet(image, place + 8 * i) != *byte {
            return false;
        }
    }
    true
}

// Whether the bytes stand at `place`, within the image.
fn lying(image: Image, place: usize, bytes: &[u8]) -> bool
    requires { length bytes.now ≤ 8 }
    ensures { result ≡ lies (cell image.entry.bytes.now) (8 * length image.entry.bytes.now) bytes.now place }
{
    let cells = 8 * image.bytes.len();
    let width = 8 * bytes.len();
    place <= cells && width <= cells - place && spelled(image.bytes, place, bytes)
}

// Whether the mark stands at `place`.
pub fn stands(mode: Mode, mark: Mark, image: Image, place: usize) -> bool
    ensures { TellsStanding mode mark image.entry.bytes.now place result }
{
    match mode {
        Mode::Fm => lying(image, place, &fm_string(mark)),
        Mode::Mfm => lying(image, place, &mfm_string(mark)),
    }
}

// The register of the EDC once the mark has entered it: what each EDC of a field begins with. The proof computes each of them from the
// mark's bytes.
pub fn register_after(mode: Mode, mark: Mark) -> u16
    ensures { IsRegisterAfter mode mark result }
{
    match mode {
        Mode::Fm => match mark {
            Mark::Index => 0xCF63,
            Mark::Identifier => 0xEF21,
            Mark::Data => 0xBF84,
            Mark::Control => 0x8FE7,
            Mark::Open => 0x9FC6,
        },
        Mode::Mfm => match mark {
            Mark::Index => 0xCC3E,
            Mark::Identifier => 0xB230,
            Mark::Data => 0xE295,
            Mark::Control => 0xD2F6,
            Mark::Open => 0xC2D7,
        },
    }
}

// The mark that a mark byte asks for: F8 a control record, any other a data record.
pub fn mark_of(byte: u8) -> Mark
    ensures { IsMarkOf byte result }
{
    if byte as u32 == CONTROL_MARK {
        Mark::Control
    } else {
        Mark::Data
    }
}
