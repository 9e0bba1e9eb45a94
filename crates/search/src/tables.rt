// The search over a table that tells, for each byte, how far before it a mark may begin.
ghost use Rattle.std.specs.Prelude.{◌≡◌, false, ℕ, ◌+◌, ◌-◌, ◌*◌, ◌≤◌, ◌<◌, ◌/◌, min, length, get_or};
ghost use Rattle.cells.specs.Cells.{cell, octet};
ghost use Rattle.cells.specs.declared.Mode.TheVariants.{Fm, Mfm};
ghost use Rattle.marks.specs.Marks.{mark_bytes};
ghost use Rattle.search.specs.Aids.{Rules, Near, Seeks, Tries};
ghost use Rattle.search.specs.Outcomes.{IsFirstMark};

use super::Kinds;
use super::places::standing;
use cells::Mode;
use marks::{Image, Mark};

// For each image byte, how many cells before it a mark may begin that has this byte inside, 1 to 8: the lower four bits have the farther of
// two places, the upper four the nearer, and 0 is none. Every mark but the index mark is counted, which is not looked for.
const BEGINS_FM: [u8; 256] = *b"\x00\x00\x00\x00\x00\x00\x00\x00\x00\x00\x00\x00\x00\x00\x00\x00\
    \x00\x00\x00\x00\x00\x00\x00\x00\x00\x00\x00\x00\x00\x00\x00\x00\
    \x00\x00\x00\x00\x00\x00\x00\x00\x00\x00\x00\x00\x00\x00\x00\x00\
    \x00\x00\x00\x00\x00\x00\x00\x00\x00\x00\x00\x00\x00\x00\x00\x00\
    \x00\x00\x00\x00\x00\x00\x00\x00\x00\x00\x00\x00\x00\x00\x00\x00\
    \x00\x00\x00\x00\x00\x00\x04\x04\x00\x00\x06\x06\x00\x00\x00\x06\
    \x00\x00\x00\x00\x00\x00\x00\x00\x00\x00\x08\x08\x00\x00\x00\x08\
    \x00\x00\x00\x00\x00\x00\x00\x00\x00\x00\x00\x00\x00\x00\x08\x00\
    \x00\x00\x00\x00\x00\x00\x00\x00\x00\x00\x00\x00\x00\x00\x00\x00\
    \x00\x00\x00\x00\x00\x00\x00\x00\x00\x00\x00\x00\x00\x00\x00\x00\
    \x00\x00\x00\x00\x00\x00\x00\x00\x00\x00\x00\x03\x00\x05\x00\x05\
    \x00\x00\x00\x00\x00\x07\x00\x07\x00\x00\x00\x00\x00\x00\x00\x07\
    \x00\x00\x00\x00\x00\x00\x00\x00\x00\x00\x00\x00\x00\x00\x00\x00\
    \x00\x00\x00\x00\x00\x02\x00\x00\x00\x00\x00\x00\x00\x00\x00\x00\
    \x00\x00\x00\x00\x00\x00\x00\x00\x00\x00\x01\x00\x00\x00\x00\x00\
    \x00\x00\x00\x00\x00\x00\x00\x00\x00\x00\x00\x00\x00\x00\x00\x00";

const BEGINS_MFM: [u8; 256] = *b"\x00\x00\x00\x00\x00\x00\x00\x00\x00\x00\x00\x00\x00\x00\x00\x00\
    \x00\x00\x02\x00\x00\x00\x00\x00\x00\x00\x00\x00\x00\x00\x00\x00\
    \x00\x00\x06\x00\x03\x00\x00\x00\x00\x00\x00\x00\x00\x00\x00\x00\
    \x00\x00\x00\x00\x00\x00\x00\x00\x00\x00\x00\x00\x00\x00\x00\x00\
    \x00\x00\x00\x00\x07\x00\x00\x00\x04\x00\x00\x00\x00\x00\x00\x00\
    \x00\x00\x00\x00\x00\x00\x00\x00\x00\x00\x00\x00\x00\x00\x00\x00\
    \x00\x00\x00\x00\x00\x00\x00\x00\x00\x00\x00\x00\x00\x00\x00\x00\
    \x00\x00\x00\x00\x00\x00\x00\x00\x00\x00\x00\x00\x00\x00\x00\x00\
    \x00\x00\x00\x00\x00\x00\x00\x00\x00\x18\x00\x00\x00\x00\x00\x00\
    \x00\x05\x00\x00\x00\x00\x00\x00\x00\x00\x00\x00\x00\x00\x00\x00\
    \x00\x00\x00\x00\x00\x00\x00\x00\x00\x00\x00\x00\x00\x00\x00\x00\
    \x00\x00\x00\x00\x00\x00\x00\x00\x00\x00\x00\x00\x00\x00\x00\x00\
    \x00\x00\x00\x00\x00\x00\x00\x00\x00\x00\x00\x00\x00\x00\x00\x00\
    \x00\x00\x00\x00\x00\x00\x00\x00\x00\x00\x00\x00\x00\x00\x00\x00\
    \x00\x00\x00\x00\x00\x00\x00\x00\x00\x00\x00\x00\x00\x00\x00\x00\
    \x00\x00\x00\x00\x00\x00\x00\x00\x00\x00\x00\x00\x00\x00\x00\x00";

// The same of the identifier mark alone. In MFM that would say no more, since all of them begin alike.
const IDENTIFIERS_FM: [u8; 256] =
    *b"\x00\x00\x00\x00\x00\x00\x00\x00\x00\x00\x00\x00\x00\x00\x00\x00\
    \x00\x00\x00\x00\x00\x00\x00\x00\x00\x00\x00\x00\x00\x00\x00\x00\
    \x00\x00\x00\x00\x00\x00\x00\x00\x00\x00\x00\x00\x00\x00\x00\x00\
    \x00\x00\x00\x00\x00\x00\x00\x00\x00\x00\x00\x00\x00\x00\x00\x00\
    \x00\x00\x00\x00\x00\x00\x00\x00\x00\x00\x00\x00\x00\x00\x00\x00\
    \x00\x00\x00\x00\x00\x00\x00\x04\x00\x00\x00\x00\x00\x00\x00\x06\
    \x00\x00\x00\x00\x00\x00\x00\x00\x00\x00\x00\x00\x00\x00\x00\x00\
    \x00\x00\x00\x00\x00\x00\x00\x00\x00\x00\x00\x00\x00\x00\x08\x00\
    \x00\x00\x00\x00\x00\x00\x00\x00\x00\x00\x00\x00\x00\x00\x00\x00\
    \x00\x00\x00\x00\x00\x00\x00\x00\x00\x00\x00\x00\x00\x00\x00\x00\
    \x00\x00\x00\x00\x00\x00\x00\x00\x00\x00\x00\x03\x00\x00\x00\x05\
    \x00\x00\x00\x00\x00\x00\x00\x00\x00\x00\x00\x00\x00\x00\x00\x07\
    \x00\x00\x00\x00\x00\x00\x00\x00\x00\x00\x00\x00\x00\x00\x00\x00\
    \x00\x00\x00\x00\x00\x02\x00\x00\x00\x00\x00\x00\x00\x00\x00\x00\
    \x00\x00\x00\x00\x00\x00\x00\x00\x00\x00\x01\x00\x00\x00\x00\x00\
    \x00\x00\x00\x00\x00\x00\x00\x00\x00\x00\x00\x00\x00\x00\x00\x00";

// The first mark of the kinds that begins within eight cells before the byte `next`, at a cell from `from` up to and without `to`; where there
// is none, the search goes on. Only the places that `begins` has are looked at.
fn tried(
    begins: u8,
    mode: Mode,
    kinds: Kinds,
    image: Image,
    next: usize,
    from: usize,
    to: usize,
) -> Option<(usize, Mark)>
    requires { Near mode image.bytes.now next × Rules mode kinds (octet (cell image.bytes.now) (8 * next)) begins }
    ensures { Tries mode kinds image.entry.bytes.now next from to result }
{
    let mut left = begins;
    while left != 0 {
        if let Some((place, mark)) = standing(mode, kinds, image, next, left % 16) {
            if (from..to).contains(&place) {
                return Some((place, mark));
            }
        }
        left /= 16;
    }
    None
}

// What the table says of an image byte.
fn entry(begins: &[u8; 256], image: &[u8], at: usize) -> u8
    requires { at < length image.now }
    ensures { result ≡ get_or begins.now (octet (cell image.now) (8 * at)) 0 }
{
    begins[image[at] as usize]
}

// The first byte from `from` on, and before `end`, that the table has, and its entry; two bytes are looked at in each turn.
fn seek(begins: &[u8; 256], image: &[u8], from: usize, end: usize) -> Option<(usize, u8)>
    requires { (end ≤ length image.now) × (from ≤ 2305843009213693952) }
    ensures { Seeks begins.now image.now from end result }
{
    let mut next = from;
    while next + 1 < end {
        let first = entry(begins, image, next);
        if first != 0 {
            return Some((next, first));
        }
        let after = next + 1;
        let second = entry(begins, image, after);
        if second != 0 {
            return Some((after, second));
        }
        next += 2;
    }
    if next < end {
        let last = entry(begins, image, next);
        if last != 0 {
            return Some((next, last));
        }
    }
    None
}

// The byte before which a search up to `to` need not look any more: the places there lie at `to` or behind it, or no mark has room.
fn end_of(mode: Mode, image: &[u8], to: usize) -> usize
    ensures { (result ≡ min (length image.now + 2 - 2 * mark_bytes mode) (to / 8 + 2)) × (result ≤ length image.now) }
{
    let bytes = image.len() + 2;
    let wide = 2 * marks::mark_bytes(mode);
    if bytes < wide {
        return 0;
    }
    let limit = to / 8 + 2;
    if bytes - wide < limit {
        return bytes - wide;
    }
    limit
}

// The search itself, over a table. One look at the byte behind a cell's own rules out eight places at once.
pub(crate) fn search(
    begins: &[u8; 256],
    mode: Mode,
    kinds: Kinds,
    image: Image,
    from: usize,
    to: usize,
) -> Option<(usize, Mark)>
    requires { (byte : ℕ) → byte < 256 → Rules mode kinds byte (get_or begins.now byte 0) }
    ensures { IsFirstMark mode kinds image.entry.bytes.now from to result }
{
    let end = end_of(mode, image.bytes, to);
    let mut next = from / 8 + 1;
    while let Some((at, before)) = seek(begins, image.bytes, next, end) {
        if let Some(found) = tried(before, mode, kinds, image, at, from, to) {
            return Some(found);
        }
        next = at + 1;
    }
    None
}

// The table for a search: that of all marks, and where no mark of a block is looked for in FM, that of the identifier mark.
pub(crate) fn table_for(mode: Mode, kinds: Kinds) -> &'static [u8; 256]
    ensures { (byte : ℕ) → byte < 256 → Rules mode kinds byte (get_or result.now byte 0) }
{
    match mode {
        Mode::Fm => {
            if kinds.block {
                &BEGINS_FM
            } else {
                &IDENTIFIERS_FM
            }
        }
        Mode::Mfm => &BEGINS_MFM,
    }
}
