// The band that an interval is in.
ghost use Rattle.std.specs.Prelude.{◌≡◌, ◌≤◌, MatchOption};
ghost use Rattle.flux.specs.Intervals.{band};
ghost use Rattle.flux.specs.Aids.{most_all};

// Both sides of each test are taken so many times. So each end of a band is one multiplication; by themselves 160 and 260 are sums of powers of two, of
// which the back end makes three or four steps.
const TIMES: u64 = 7;

// The half cells of an interval, of the ticks and the half cells of the last eight; none where it is in no band. The bands' upper ends are asked first,
// as one after the other parts the bands.
#[tactic(auto, unfolding(crate::specs::Intervals::band, crate::specs::Intervals::within))]
pub(crate) fn half_cells(ticks: u64, halves: u64, interval: u32) -> Option<u64>
    requires { (ticks ≤ most_all) × (halves ≤ 32) }
    ensures { MatchOption result (band ticks halves interval ≡ 0) (λ h. (h ≡ band ticks halves interval) × (1 ≤ h) × (h ≤ 4)) }
{
    let compared = TIMES * (100 * (interval as u64) * halves);
    if compared <= TIMES * 240 * ticks {
        if TIMES * 160 * ticks <= compared {
            return Some(2);
        }
        return None;
    }
    if compared <= TIMES * 330 * ticks {
        if TIMES * 260 * ticks <= compared {
            return Some(3);
        }
        return None;
    }
    if compared <= TIMES * 450 * ticks {
        if TIMES * 370 * ticks <= compared {
            return Some(4);
        }
    }
    None
}
