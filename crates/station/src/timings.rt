// A capture of flux timings in numbers, for the exported function: how many cells there are, or which interval is in no band.
ghost use Rattle.std.specs.Prelude.{◌≡◌};
ghost use Rattle.station.specs.Timings.{laid_numbers};

use flux::Refusal;

// The number of cells and 0; of a refused capture 0 and the number of the interval that is in no band, or zeros.
pub(crate) fn laid_numbers(answer: Result<u64, Refusal>) -> [u64; 2]
    ensures { result ≡ laid_numbers answer }
{
    match answer {
        Ok(cells) => [cells, 0],
        Err(refusal) => [0, flux::interval_number(refusal)],
    }
}
