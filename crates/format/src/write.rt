// The fields of a track. Each function writes its field from the image byte `at` on and leaves every other byte.
ghost use Rattle.std.specs.Prelude.{◌≡◌, [], ◌∷◌, ◌++◌, ◌+◌, ◌*◌, ◌≤◌, ◌%◌, length};
ghost use Rattle.std.proofs.lemmas.List.Edits.{sets};
ghost use Rattle.edc.specs.Register.{edc_of};
ghost use Rattle.layouts.specs.Layouts.{gap_byte};
ghost use Rattle.marks.specs.Marks.{string, last_bit, mark_bytes, covered};
ghost use Rattle.format.specs.Order.{mark as marked, image, run, bytes, checked};

use cells::Mode;
use coding::Pair;
use marks::Mark;

// One pair of image bytes.
fn write_pair(area: &mut [u8], at: usize, pair: Pair)
    requires { at + 2 ≤ length area.old }
    ensures { area.new ≡ sets area.old at (pair.first ∷ pair.second ∷ []) }
{
    area[at] = pair.first;
    area[at + 1] = pair.second;
}

// The byte `count` times, after the bit `before`: the first of them alone can have another clock cell. The answer is the byte behind them.
pub(crate) fn write_run(
    mode: Mode,
    before: u8,
    byte: u8,
    count: usize,
    area: &mut [u8],
    at: usize,
) -> usize
    requires { at + 2 * count ≤ length area.old }
    ensures written { area.new ≡ sets area.old at (image mode before (run count byte [])) }
    ensures behind { result ≡ at + 2 * count }
{
    if count == 0 {
        return at;
    }
    write_pair(area, at, coding::coded(mode, before, byte));
    let pair = coding::coded(mode, byte % 2, byte);
    for i in 1..count {
        write_pair(area, at + 2 * i, pair);
    }
    at + 2 * count
}

// Image bytes as they are. The answer is the byte behind them.
fn write_string(string: &[u8], area: &mut [u8], at: usize) -> usize
    requires { at + length string.now ≤ length area.old }
    ensures written { area.new ≡ sets area.old at string.now }
    ensures behind { result ≡ at + length string.now }
{
    let behind = at + string.len();
    area[at..behind].copy_from_slice(string);
    behind
}

// A mark; there is room for the longer ones in either mode. The answer is the byte behind it.
fn write_mark(mode: Mode, mark: Mark, area: &mut [u8], at: usize) -> usize
    requires { at + 8 ≤ length area.old }
    ensures written { area.new ≡ sets area.old at (string mode mark) }
    ensures behind { result ≡ at + 2 * mark_bytes mode }
{
    match mode {
        Mode::Fm => write_string(&marks::fm_string(mark), area, at),
        Mode::Mfm => write_string(&marks::mfm_string(mark), area, at),
    }
}

// A mark behind a gap, with the 00 bytes before it. The answer is the byte behind it.
pub(crate) fn write_front(mode: Mode, sync: usize, mark: Mark, area: &mut [u8], at: usize) -> usize
    requires { at + 2 * sync + 8 ≤ length area.old }
    ensures written { area.new ≡ sets area.old at (image mode (gap_byte mode % 2) (run sync 0 (marked mark ∷ []))) }
    ensures behind { result ≡ at + 2 * (sync + mark_bytes mode) }
{
    let gap = layouts::gap_byte(mode);
    let mark_at = write_run(mode, gap % 2, 0, sync, area, at);
    write_mark(mode, mark, area, mark_at)
}

// Bytes after a mark, and their EDC; the answer is the EDC's last bit. The register goes over the bytes first, by itself: the loop that
// codes them has then nothing that one turn waits for another for.
fn write_checked(mode: Mode, mark: Mark, contents: &[u8], area: &mut [u8], at: usize) -> u8
    requires { at + 2 * (length contents.now + 2) ≤ length area.old }
    ensures written { area.new ≡ sets area.old at (image mode (last_bit mark) (bytes (checked mode mark contents.now) [])) }
    ensures bit { result ≡ edc_of (covered mode mark ++ contents.now) % 2 }
{
    let register = edc::bytes_entered(marks::register_after(mode, mark), contents);
    let mut last = marks::last_bit(mark);
    let mut next = at;
    for &byte in contents {
        write_pair(area, next, coding::coded(mode, last % 2, byte));
        last = byte;
        next += 2;
    }
    let upper = (register / 256) as u8;
    let lower = (register % 256) as u8;
    write_pair(area, next, coding::coded(mode, last % 2, upper));
    write_pair(area, next + 2, coding::coded(mode, upper % 2, lower));
    lower % 2
}

// Bytes after a mark with their EDC, and a gap of `space` bytes. The answer is the byte behind it.
pub(crate) fn write_body(
    mode: Mode,
    mark: Mark,
    contents: &[u8],
    space: usize,
    area: &mut [u8],
    at: usize,
) -> usize
    requires { at + 2 * (length contents.now + 2 + space) ≤ length area.old }
    ensures written { area.new ≡ sets area.old at (image mode (last_bit mark) (bytes (checked mode mark contents.now) (run space (gap_byte mode) []))) }
    ensures behind { result ≡ at + 2 * (length contents.now + 2 + space) }
{
    let last = write_checked(mode, mark, contents, area, at);
    let gap = layouts::gap_byte(mode);
    let gap_at = at + 2 * (contents.len() + 2);
    write_run(mode, last, gap, space, area, gap_at)
}
