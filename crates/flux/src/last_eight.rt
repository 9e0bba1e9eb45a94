// The last eight numbers and what they add up to.
ghost use Rattle.std.specs.Prelude.{◌≡◌, ◌*◌, ◌%◌, ◌≤◌, length, replicate, slice_set};
ghost use Rattle.std.specs.List.{All, sum};

// Eight numbers, none above MOST, and their sum. They go round: each comes in where the oldest stands.
#[derive(Drop)]
pub(crate) struct LastEight<const MOST: u32> {
    // as wide as the sum: narrower ones would each take a step more to add
    numbers: [u64; 8],
    pub(crate) total: u64,
    ghost eight: { length numbers ≡ 8 },
    ghost summed: { total ≡ sum numbers },
    ghost most: { All (λ x. x ≤ MOST) numbers },
    ghost within: { total ≤ 8 * MOST },
}

impl<const MOST: u32> LastEight<MOST> {
    // Eight alike.
    pub(crate) fn new(number: u64) -> LastEight<MOST>
        requires { number ≤ MOST }
        ensures { result.numbers ≡ replicate 8 number }
    {
        LastEight {
            numbers: [number; 8],
            total: 8 * number,
        }
    }

    // The number of this place in the order comes in, and the oldest goes.
    pub(crate) fn renew(&mut self, place: usize, number: u64)
        requires { number ≤ MOST }
        ensures { self.new.numbers ≡ slice_set self.old.numbers (place % 8) number }
    {
        let oldest = place % 8;
        self.total = self.total - self.numbers[oldest] + number;
        self.numbers[oldest] = number;
    }
}
