// The cells are laid as the stamps come: one pass, with the last eight intervals kept and nothing else.
ghost use Rattle.std.specs.Prelude.{◌≡◌, ◌*◌, ◌<◌, ◌≤◌, [], ◌∷◌, length};
ghost use Rattle.flux.specs.Intervals.{between};
ghost use Rattle.flux.specs.Images.{image_of};
ghost use Rattle.flux.specs.Aids.{with_one, LaysIntervals, LaysAll};

use super::bands::half_cells;
use super::last_eight::LastEight;
use super::{LEAST_TICKS, MOST_TICKS, Refusal};

// A 1 in the cell of a place.
#[tactic(auto, unfolding(crate::specs::Aids::with_one))]
fn put_one(image: &mut [u8], place: usize)
    requires { place < 8 * length image.old }
    ensures { image.new ≡ with_one image.old place }
{
    let at = place / 8;
    image[at] |= 128u8 >> (place % 8);
}

// The ticks from one stamp to the next. The counter may have run over between them.
fn ticks_between(earlier: u32, later: u32) -> u32
    ensures { result ≡ between earlier later }
{
    later.wrapping_sub(earlier)
}

// The cells of the intervals, behind the first stamp's 1. What is left in the image of a refused capture is not said.
fn lay_intervals(ticks: u32, stamps: &[u32], image: &mut [u8]) -> Result<u64, Refusal>
    requires { (1 ≤ length stamps.now) × (1 ≤ length image.old) }
    ensures { LaysIntervals ticks stamps.now image.old result image.new }
{
    // at the start eight of one nominal cell each, which is two half cells
    let mut last_ticks = LastEight::<{ u32::MAX }>::new(ticks as u64);
    let mut last_halves = LastEight::<4>::new(2);
    // the cell of the last 1
    let mut place = 0;
    for number in 1..stamps.len() {
        let interval = ticks_between(stamps[number - 1], stamps[number]);
        let band = half_cells(last_ticks.total, last_halves.total, interval);
        let halves = band.ok_or(Refusal::NoBand(number as u64))?;
        place += halves as usize;
        if image.len() <= place / 8 {
            return Err(Refusal::PastImage);
        }
        put_one(image, place);
        last_ticks.renew(number, interval as u64);
        last_halves.renew(number, halves);
    }
    Ok(place as u64 + 1)
}

// The first stamp's cell, a 1, and zeros in all the others.
fn begin(image: &mut [u8])
    requires { 1 ≤ length image.old }
    ensures { image.new ≡ image_of (length image.old) (1 ∷ []) }
{
    image[0] = 128;
    cells::clear(&mut image[1..]);
}

// The tests of 41 and 42, and the cells. What is left in the image of a refused capture is not said.
pub(crate) fn lay_all(ticks: u32, stamps: &[u32], image: &mut [u8]) -> Result<u64, Refusal>
    ensures { LaysAll ticks stamps.now (length image.old) result image.new }
{
    if !(LEAST_TICKS..=MOST_TICKS).contains(&ticks) {
        return Err(Refusal::TicksNumber);
    }
    if stamps.is_empty() {
        return Err(Refusal::NoStamps);
    }
    if image.is_empty() {
        return Err(Refusal::PastImage);
    }
    begin(image);
    lay_intervals(ticks, stamps, image)
}
