// The cells of an image: eight to a byte, most significant first, what eight and sixteen of them hold, and which clock cells are doubtful.
// Every function takes any place: past the image's end cells are 0.
#![tactic(auto)]

ghost use Rattle.std.specs.Prelude.{◌≡◌, ◌+◌, ◌-◌, ◌*◌, ◌/◌, ◌%◌, ◌^◌, ◌<◌, ◌≤◌, length, ◌≢◌, slice_index};
ghost use Rattle.cells.specs.Cells.{cell, byte_of, octet};
ghost use Rattle.cells.specs.Aids.{ruled, right_clocks};
ghost use Rattle.cells.specs.Outcomes.{IsOctet, IsDataByte, IsReadByte, AreReadBytes, AreZeros};

mod runs;

// The two modes of recording (004, 4.1).
#[derive(Clone, Copy, Debug, PartialEq, Eq)]
pub enum Mode {
    Fm,
    Mfm,
}

// What reading one byte tells.
#[derive(Clone, Copy, Debug, PartialEq, Eq)]
pub struct ReadByte {
    pub byte: u8,
    // how many of its eight clock cells are doubtful: not those of the mode's rule
    pub clocks: u32,
}

// The image byte at an index, or 0 past the end.
fn byte_or_zero(image: &[u8], at: usize) -> u8
    ensures { result ≡ slice_index image.now at }
{
    image.get(at).copied().unwrap_or(0)
}

// The eight cells that begin `shift` cells into two image bytes.
fn window(first: u8, second: u8, shift: usize) -> u8
    requires { shift < 8 }
    ensures { result ≡ (first * 256 + second) / 2 ^ (8 - shift) % 256 }
{
    let both = u16::from_be_bytes([first, second]);
    ((both >> (8 - shift)) % 256) as u8
}

// The eight cells from `place` on. One test tells that both bytes are there; else the second is 0.
pub fn octet(image: &[u8], place: usize) -> u8
    ensures { IsOctet image.now place result }
{
    let at = place / 8;
    if at + 1 < image.len() {
        return window(image[at], image[at + 1], place % 8);
    }
    window(byte_or_zero(image, at), 0, place % 8)
}

// The sixteen cells that begin `shift` cells into three image bytes. A fourth comes with them, so that all are loaded at once, and falls away.
fn wide_window(first: u8, second: u8, third: u8, fourth: u8, shift: usize) -> u16
    requires { shift < 8 }
    ensures { result ≡ (first * 65536 + second * 256 + third) / 2 ^ (8 - shift) % 65536 }
{
    let all = u32::from_be_bytes([first, second, third, fourth]);
    ((all >> (16 - shift)) % 65536) as u16
}

// The data cells of two octets, put together in bits 3 to 6 of each. Each step lays the cells over themselves, one and two places up, and
// the mask keeps those that came together.
pub(crate) fn nibbles(octets: u16) -> u16
    ensures { result ≡ byte_of 0 (octets / 16384 % 2) (octets / 4096 % 2) (octets / 1024 % 2) (octets / 256 % 2) 0 0 0 * 256
        + byte_of 0 (octets / 64 % 2) (octets / 16 % 2) (octets / 4 % 2) (octets % 2) 0 0 0 }
{
    let data = octets & 0x5555;
    let pairs = (data | (data << 1)) & 0x6666;
    (pairs | (pairs << 2)) & 0x7878
}

// The data cells of sixteen cells, put together as a byte.
fn together(cells: u16) -> u8
    ensures { result ≡ byte_of (cells / 16384 % 2) (cells / 4096 % 2) (cells / 1024 % 2) (cells / 256 % 2)
        (cells / 64 % 2) (cells / 16 % 2) (cells / 4 % 2) (cells % 2) }
{
    let both = nibbles(cells) as u32;
    (both * 17 / 128 % 256) as u8
}

// The sixteen cells that begin `shift` cells into the image byte `at`. One test tells that all bytes are there.
fn sixteen_from(image: &[u8], at: usize, shift: usize) -> u16
    requires { (shift < 8) × (at + 3 < 2 ^ 64) }
    ensures { result ≡ octet (cell image.now) (8 * at + shift) * 256 + octet (cell image.now) (8 * at + shift + 8) }
{
    if at + 3 < image.len() {
        return wide_window(
            image[at],
            image[at + 1],
            image[at + 2],
            image[at + 3],
            shift,
        );
    }
    wide_window(
        byte_or_zero(image, at),
        byte_or_zero(image, at + 1),
        byte_or_zero(image, at + 2),
        0,
        shift,
    )
}

// The data byte of the sixteen cells from `place` on.
pub fn data_byte(image: &[u8], place: usize) -> u8
    ensures { IsDataByte image.now place result }
{
    together(sixteen_from(image, place / 8, place % 8))
}

// The clock cells that go by the data bits beside them: in MFM all of sixteen, in FM none.
fn ruled(mode: Mode) -> u16
    ensures { result ≡ ruled mode }
{
    match mode {
        Mode::Fm => 0,
        Mode::Mfm => 0xAAAA,
    }
}

// Of two octets the clock cells that are right, each where it stands; what stands at the data cells is of no use. `earlier` are the octets from one cell
// earlier on, so that the data bit before a clock cell stands where the cell does. In MFM a clock cell is right where it differs from "one of the two bits
// beside it is ONE", in FM where it differs from 0.
pub(crate) fn right_clocks(mode: Mode, earlier: u16, cells: u16) -> u16
    ensures { result ≡ right_clocks mode earlier cells }
{
    cells ^ ((((cells & 0x5555) << 1) | earlier) & ruled(mode))
}

// A bit where it comes before the first of sixteen cells: 0 is ZERO, anything else ONE.
fn bit_before(before: u8) -> u16
    ensures { (before ≡ 0 → result ≡ 0) × ((before ≢ 0) → result ≡ 32768) × (result ≤ 32768) }
{
    if before == 0 { 0 } else { 32768 }
}

// The byte of the sixteen cells that begin `shift` cells into the image byte `at`, and its doubtful clock cells after the bit `before`. Counted by the
// operation that counts ones: so the function is short, and where its callers leave the count the back end leaves it out.
pub(crate) fn byte_from(mode: Mode, before: u8, image: &[u8], at: usize, shift: usize) -> ReadByte
    requires { (shift < 8) × (at + 3 < 2 ^ 64) }
    ensures { IsReadByte mode before image.now (8 * at + shift) result }
{
    let cells = sixteen_from(image, at, shift);
    let right = right_clocks(mode, bit_before(before) + cells / 2, cells);
    ReadByte {
        byte: together(cells),
        clocks: 8 - (right & 0xAAAA).count_ones(),
    }
}

// Reads the byte of the sixteen cells from `place` on, after the bit `before`: 0 is ZERO, anything else ONE.
pub fn read_byte(mode: Mode, before: u8, image: &[u8], place: usize) -> ReadByte
    ensures { IsReadByte mode before image.now place result }
{
    byte_from(mode, before, image, place / 8, place % 8)
}

// Reads into the area the bytes from `place` on, the first of them after the bit `before`: 0 is ZERO, anything else ONE. The answer is how many of their
// clock cells are doubtful. One test tells that all their image bytes are there and that the sum fits in sixteen bits, and one that the bit before is
// what stands before them, as it does behind a mark.
pub fn read_bytes(mode: Mode, before: u8, image: &[u8], place: usize, bytes: &mut [u8]) -> u32
    ensures { AreReadBytes mode before image.now place (length bytes.old) result bytes.new }
{
    if place == 0 {
        return runs::fill_by_bytes(mode, before, image, 0, 0, bytes);
    }
    let at = (place - 1) / 8;
    let shift = (place - 1) % 8;
    if at < image.len()
        && bytes.len() <= (image.len() - at - 1) / 2
        && bytes.len() < 8192
        && runs::cell_at(image, at, shift) == before
    {
        return runs::fill_by_mode(mode, image, at, shift, bytes);
    }
    runs::fill_by_bytes(mode, before, image, place / 8, place % 8, bytes)
}

// Fills the area with zeros.
pub fn clear(area: &mut [u8])
    ensures { AreZeros (length area.old) area.new }
{
    area.fill(0);
}
