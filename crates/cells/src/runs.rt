// A run of bytes, read into an area: by words of sixteen cells where all their image bytes are there, they are not too many, and the bit before is the
// cell before them; else one after the other.
ghost use Rattle.std.specs.Prelude.{◌≡◌, ◌+◌, ◌-◌, ◌*◌, ◌/◌, ◌%◌, ◌^◌, ◌<◌, ◌≤◌, length, slice_index};
ghost use Rattle.cells.specs.Cells.{cell, byte_of};
ghost use Rattle.cells.specs.Aids.{word_clocks, Served, IsRunRead};
ghost use Rattle.cells.specs.Outcomes.{AreReadBytes};

use super::{Mode, byte_from, nibbles, right_clocks};

// Two image bytes as a word, the first in its lower half, as the processor takes them from memory. By itself, so that the back end makes one
// load of the two before it sees that words overlap.
fn word_at(image: &[u8], at: usize) -> u16
    requires { at + 1 < length image.now }
    ensures { result ≡ slice_index image.now at + slice_index image.now (at + 1) * 256 }
{
    u16::from_le_bytes([image[at], image[at + 1]])
}

// The lowest `count` bits of both halves of a word.
fn low_bits(count: usize) -> u16
    requires { count ≤ 8 }
    ensures { result ≡ (2 ^ count - 1) * 256 + (2 ^ count - 1) }
{
    ((1u16 << count) - 1) * 257
}

// The two octets that begin `shift` cells into the halves of a word: their upper cells come from it, and the lower ones from `next`, the word
// one byte further on.
fn word_window(word: u16, next: u16, shift: usize) -> u16
    requires { shift ≤ 8 }
    ensures { result ≡ (word % 256 * 256 + next % 256) / 2 ^ (8 - shift) % 256 + (word / 256 * 256 + next / 256) / 2 ^ (8 - shift) % 256 * 256 }
{
    ((word & low_bits(8 - shift)) << shift) + ((next >> (8 - shift)) & low_bits(shift))
}

// The data cells of the two octets of a word, put together as a byte.
fn word_data(word: u16) -> u8
    ensures { result ≡ byte_of (word / 64 % 2) (word / 16 % 2) (word / 4 % 2) (word % 2)
        (word / 16384 % 2) (word / 4096 % 2) (word / 1024 % 2) (word / 256 % 2) }
{
    let both = nibbles(word);
    ((both * 2 + both / 2048) % 256) as u8
}

// How many clock cells of two octets are right, by adding halves until all eight are in the top four bits: all in sixteen bits.
fn right_in_word(mode: Mode, earlier: u16, cells: u16) -> u16
    ensures { (result + word_clocks mode earlier cells ≡ 8) × (result ≤ 8) }
{
    let right = right_clocks(mode, earlier, cells);
    let pairs = ((right & 0x2222) >> 1) + ((right & 0x8888) >> 3);
    let fours = pairs + (pairs << 4);
    (fours + (fours << 8)) >> 12
}

// Reads into the area the bytes that begin one cell behind the one that is `shift` cells into the image byte `at`, and is the bit before them, where all
// their image bytes are there and the sum fits. No turn waits for another but to add its count, none branches, and all is done in sixteen bits: so the
// back end makes eight bytes at once, in FM sixteen.
fn fill_by_words(mode: Mode, image: &[u8], at: usize, shift: usize, bytes: &mut [u8]) -> u32
    requires { Served image.now at shift (length bytes.old) }
    ensures { IsRunRead mode image.now at shift (length bytes.old) result bytes.new }
{
    let mut right: u16 = 0;
    for (i, byte) in bytes.iter_mut().enumerate() {
        let from = at + 2 * i;
        let word = word_at(image, from);
        let next = word_at(image, from + 1);
        let cells = word_window(word, next, shift + 1);
        *byte = word_data(cells);
        right += right_in_word(mode, word_window(word, next, shift), cells);
    }
    (8 * bytes.len() - right as usize) as u32
}

// The same by a loop for each mode: that of FM asks for no bit before.
pub(crate) fn fill_by_mode(
    mode: Mode,
    image: &[u8],
    at: usize,
    shift: usize,
    bytes: &mut [u8],
) -> u32
    requires { Served image.now at shift (length bytes.old) }
    ensures { IsRunRead mode image.now at shift (length bytes.old) result bytes.new }
{
    match mode {
        Mode::Fm => fill_by_words(Mode::Fm, image, at, shift, bytes),
        Mode::Mfm => fill_by_words(Mode::Mfm, image, at, shift, bytes),
    }
}

// The same whatever the image has, from `shift` cells into the image byte `at` on, after any bit. Past the image's end `from` stays: all that follows is 0.
pub(crate) fn fill_by_bytes(
    mode: Mode,
    before: u8,
    image: &[u8],
    at: usize,
    shift: usize,
    bytes: &mut [u8],
) -> u32
    requires { (shift < 8) × (at + 3 < 2 ^ 64) }
    ensures { AreReadBytes mode before image.now (8 * at + shift) (length bytes.old) result bytes.new }
{
    let mut clocks: u32 = 0;
    let mut last = before;
    let mut from = at;
    for byte in bytes.iter_mut() {
        let read = byte_from(mode, last, image, from, shift);
        *byte = read.byte;
        clocks = clocks.wrapping_add(read.clocks);
        last = read.byte % 2;
        if from < image.len() {
            from += 2;
        }
    }
    clocks
}

// The cell that is `shift` cells into the image byte `at`.
pub(crate) fn cell_at(image: &[u8], at: usize, shift: usize) -> u8
    requires { (shift < 8) × (at < length image.now) }
    ensures { result ≡ cell image.now (8 * at + shift) }
{
    (image[at] >> (7 - shift)) % 2
}
