// Which mark stands at a place near a byte. The image bytes there are joined to one word, shifted to the place, and compared with the word of
// the mark's own bytes.
ghost use Rattle.std.specs.Prelude.{◌≡◌, ◌+◌, ◌-◌, ◌*◌, ◌≤◌, ◌<◌, length};
ghost use Rattle.cells.specs.Cells.{cell};
ghost use Rattle.marks.specs.Marks.{mark_bytes};
ghost use Rattle.search.specs.Search.{among, standing};
ghost use Rattle.search.specs.Aids.{word_at, spelled_by, Tells, Begins, Near};

use super::Kinds;
use cells::Mode;
use marks::{Image, Mark};

// The string of each mark that can be looked for, as one word.
const IDENTIFIER_FM: u64 = (marks::IDENTIFIER_FM[0] as u64) * 256 + marks::IDENTIFIER_FM[1] as u64;

const DATA_FM: u64 = (marks::DATA_FM[0] as u64) * 256 + marks::DATA_FM[1] as u64;

const CONTROL_FM: u64 = (marks::CONTROL_FM[0] as u64) * 256 + marks::CONTROL_FM[1] as u64;

const OPEN_FM: u64 = (marks::OPEN_FM[0] as u64) * 256 + marks::OPEN_FM[1] as u64;

// In MFM all of them begin with the same seven bytes, three times the two of A1* and one more.
const SYNC_MFM: u64 = (marks::OPEN_MFM[0] as u64) * 256 + marks::OPEN_MFM[1] as u64;

const START_MFM: u64 = ((SYNC_MFM * 65536 + SYNC_MFM) * 65536 + SYNC_MFM) * 256
    + marks::OPEN_MFM[6] as u64;

const IDENTIFIER_MFM: u64 = START_MFM * 256 + marks::IDENTIFIER_MFM[7] as u64;

const DATA_MFM: u64 = START_MFM * 256 + marks::DATA_MFM[7] as u64;

const CONTROL_MFM: u64 = START_MFM * 256 + marks::CONTROL_MFM[7] as u64;

const OPEN_MFM: u64 = START_MFM * 256 + marks::OPEN_MFM[7] as u64;

// Whether the mark is of the kinds.
pub(crate) fn is_among(kinds: Kinds, mark: Mark) -> bool
    ensures { result ≡ among kinds mark }
{
    match mark {
        Mark::Index => false,
        Mark::Identifier => kinds.identifier,
        Mark::Data | Mark::Control | Mark::Open => kinds.block,
    }
}

// The eight image bytes from an index on, as one word.
fn eight(image: &[u8], at: usize) -> u64
    requires { at + 8 ≤ length image.now }
    ensures { result ≡ word_at image.now at 8 }
{
    u64::from_be_bytes(image[at..at + 8].try_into().unwrap())
}

// The three image bytes from an index on, as one word. The third is 0 past the end.
fn three(image: &[u8], at: usize) -> u32
    requires { at + 2 ≤ length image.now }
    ensures { result ≡ word_at image.now at 3 }
{
    if at + 2 < image.len() {
        return u32::from_be_bytes([0, image[at], image[at + 1], image[at + 2]]);
    }
    u32::from_be_bytes([0, image[at], image[at + 1], 0])
}

// The mark whose string is this word, if it is one that can be looked for.
fn spelled_by(mode: Mode, word: u64) -> Option<Mark>
    ensures { result ≡ spelled_by mode word }
{
    match mode {
        Mode::Fm => match word {
            IDENTIFIER_FM => Some(Mark::Identifier),
            DATA_FM => Some(Mark::Data),
            CONTROL_FM => Some(Mark::Control),
            OPEN_FM => Some(Mark::Open),
            _ => None,
        },
        Mode::Mfm => match word {
            IDENTIFIER_MFM => Some(Mark::Identifier),
            DATA_MFM => Some(Mark::Data),
            CONTROL_MFM => Some(Mark::Control),
            OPEN_MFM => Some(Mark::Open),
            _ => None,
        },
    }
}

// The mark that is spelled `back` cells before the byte `next`, if one is. In MFM the seven bytes with which all these marks begin lie within
// eight image bytes, and are compared at once.
fn told(mode: Mode, image: &[u8], next: usize, back: u8) -> Option<Mark>
    requires { Near mode image.now next × (next ≤ 268435456) × (0 < back) × (back ≤ 8) }
    ensures { Tells mode (cell image.now) (8 * next - back) result }
{
    match mode {
        Mode::Fm => {
            let word = (three(image, next - 1) >> back) % 65536;
            spelled_by(Mode::Fm, word as u64)
        }
        Mode::Mfm => {
            if (eight(image, next - 1) >> back) % 72057594037927936 != START_MFM {
                return None;
            }
            let last = cells::octet(image, 8 * next - (back as usize) + 56);
            spelled_by(Mode::Mfm, START_MFM * 256 + (last as u64))
        }
    }
}

// Which mark of the kinds stands `back` cells before the byte `next`.
pub(crate) fn standing(
    mode: Mode,
    kinds: Kinds,
    image: Image,
    next: usize,
    back: u8,
) -> Option<(usize, Mark)>
    requires { Near mode image.bytes.now next × (0 < back) × (back ≤ 8) }
    ensures { result ≡ standing mode (cell image.entry.bytes.now) (8 * length image.entry.bytes.now) kinds (8 * next - back) }
{
    let mark = told(mode, image.bytes, next, back)?;
    if !is_among(kinds, mark) {
        return None;
    }
    let place = 8 * next - (back as usize);
    if 8 * image.bytes.len() < place + 16 * marks::mark_bytes(mode) {
        return None;
    }
    Some((place, mark))
}

// The mark that the byte `at` begins, if it begins one, by all its bytes at once. Each mode asks for its own room, against a constant.
pub(crate) fn begun(mode: Mode, image: &[u8], at: usize) -> Option<Mark>
    requires { at ≤ length image.now }
    ensures { Begins mode image.now at result }
{
    let room = image.len() - at;
    match mode {
        Mode::Fm => {
            if room < marks::DATA_FM.len() {
                return None;
            }
            let word = u16::from_be_bytes([image[at], image[at + 1]]);
            spelled_by(Mode::Fm, word as u64)
        }
        Mode::Mfm => {
            if room < marks::DATA_MFM.len() {
                return None;
            }
            spelled_by(Mode::Mfm, eight(image, at))
        }
    }
}
