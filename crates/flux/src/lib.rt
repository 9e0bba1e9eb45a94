// Flux timings: a capture is the time stamps of a track's flux transitions, from a counter of 32 bits that runs over, and gives the cells of the track.
// The speed is followed over the last eight intervals.
#![tactic(auto)]

ghost use Rattle.std.specs.Prelude.{length};
ghost use Rattle.flux.specs.Outcomes.{IsRefusalNumber, IsIntervalNumber, Lays};

mod bands;
mod last_eight;
mod laying;

// The fewest ticks of a nominal cell.
pub const LEAST_TICKS: u32 = 16;

// The most ticks of a nominal cell.
pub const MOST_TICKS: u32 = 1024;

// Why a capture gives no cells, in the order of the papers' numbers 41 to 44.
#[derive(Clone, Copy, Debug, PartialEq, Eq)]
pub enum Refusal {
    // the ticks of a nominal cell are out of range
    TicksNumber,
    // there are no stamps
    NoStamps,
    // the interval of this number, from 1, is in no band
    NoBand(u64),
    // a cell passes the image
    PastImage,
}

// The number that the papers give a refusal.
impl From<Refusal> for u8 {
    ghost from_gives = { IsRefusalNumber };

    fn from(refusal: Refusal) -> u8 {
        match refusal {
            Refusal::TicksNumber => 41,
            Refusal::NoStamps => 42,
            Refusal::NoBand(_) => 43,
            Refusal::PastImage => 44,
        }
    }
}

// The number of the interval that is in no band; 0 of the other refusals.
pub fn interval_number(refusal: Refusal) -> u64
    ensures { IsIntervalNumber refusal result }
{
    match refusal {
        Refusal::NoBand(interval) => interval,
        _ => 0,
    }
}

// Lays the cells that the stamps give into the image, and zeros behind them, where a nominal cell takes so many ticks: the number of cells. A refusal
// leaves zeros in the whole image.
pub fn lay(ticks: u32, stamps: &[u32], image: &mut [u8]) -> Result<u64, Refusal>
    ensures { Lays ticks stamps.now (length image.old) result image.new }
{
    let answer = laying::lay_all(ticks, stamps, image);
    if answer.is_err() {
        cells::clear(image);
    }
    answer
}
