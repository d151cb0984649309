// The distance of any two profiles. Their wells are read in the loop: no copy stands between.
ghost use Rattle.std.specs.Prelude.{◌≡◌, ℕ, ◌+◌, ◌^◌, ◌≤◌, ◌<◌, max, length};
ghost use Rattle.profile.specs.Distance.{joined, distance as distance_of};
ghost use Rattle.profile.specs.InTurn.{InTurn, sum_in_turn, max_in_turn};
ghost use Rattle.profile.specs.Metric.{metric_number, greatest};

use crate::metric::Metric;
use crate::source::Profile;
use crate::well::difference;

// The wells' differences that were met so far, as one number.
trait Joined {
    ghost op: { ℕ → ℕ → ℕ };

    ghost so_far: { Self → ℕ };

    fn none() -> Self
        ensures { so_far result ≡ 0 };

    fn and(self, difference: u16) -> Self
        requires { so_far self + difference < 2 ^ 32 }
        ensures { so_far result ≡ op (so_far self) difference };

    ghost laws: { InTurn op };
}

// Metric 1.
#[derive(Clone, Copy)]
struct Sum(u32);

impl Joined for Sum {
    ghost op = { ◌+◌ };

    ghost so_far = { λ s. s.0 };

    ghost laws = { sum_in_turn };

    #[inline(always)]
    fn none() -> Self {
        Sum(0)
    }

    #[inline(always)]
    fn and(self, difference: u16) -> Self {
        Sum(self.0 + u32::from(difference))
    }
}

// Metric 2.
#[derive(Clone, Copy)]
struct Most(u16);

impl Joined for Most {
    ghost op = { max };

    ghost so_far = { λ s. s.0 };

    ghost laws = { max_in_turn };

    #[inline(always)]
    fn none() -> Self {
        Most(0)
    }

    #[inline(always)]
    fn and(self, difference: u16) -> Self {
        Most(self.0.max(difference))
    }
}

#[inline(always)]
fn join<J: Joined, A: Profile + Copy, B: Profile + Copy>(a: A, b: B, wells: usize) -> J
    requires width { wells ≤ 16 }
    requires lengths { (length (A.wells a) ≡ wells) × (length (B.wells b) ≡ wells) }
    ensures exact { J.so_far result ≡ joined J.op (A.wells a) (B.wells b) }
    ensures bound { J.so_far result ≤ 1048560 }
{
    let mut so_far = J::none();
    for i in 0..wells {
        so_far = so_far.and(difference(a.well(i), b.well(i)));
    }
    so_far
}

// The distance by a metric; here alone a metric picks its code. `wells` stands beside the profiles so that a width that is written out reaches the
// loop. Where it must be fast, it is measured in a task that is written out.
#[inline(always)]
#[tactic(auto, unfolding(crate::specs::Distance::distance))]
pub fn distance<A: Profile + Copy, B: Profile + Copy>(
    metric: Metric,
    a: A,
    b: B,
    wells: usize,
) -> u32
    requires width { wells ≤ 16 }
    requires lengths { (length (A.wells a) ≡ wells) × (length (B.wells b) ≡ wells) }
    ensures exact { result ≡ distance_of (metric_number metric) (A.wells a) (B.wells b) }
    ensures bound { result ≤ 1048560 }
    ensures metric_bound { result ≤ greatest metric }
{
    match metric {
        Metric::CityBlock => join::<Sum, A, B>(a, b, wells).0,
        Metric::Largest => u32::from(join::<Most, A, B>(a, b, wells).0),
    }
}

// The distance by a metric's number, which may be no metric's: then it is 0.
#[inline(always)]
#[tactic(auto, using(crate::proofs::Distances::distance_other))]
fn at_width<A: Profile + Copy, B: Profile + Copy>(number: u8, a: A, b: B, wells: usize) -> u32
    requires width { wells ≤ 16 }
    requires lengths { (length (A.wells a) ≡ wells) × (length (B.wells b) ≡ wells) }
    ensures exact { result ≡ distance_of number (A.wells a) (B.wells b) }
    ensures bound { result ≤ 1048560 }
{
    match Metric::try_from(number) {
        Ok(metric) => distance(metric, a, b, wells),
        Err(_) => 0,
    }
}

// The same, with the usual widths written out, as its callers have no loop of their own to write them out above.
pub fn by_number<A: Profile + Copy, B: Profile + Copy>(number: u8, a: A, b: B, wells: usize) -> u32
    requires width { wells ≤ 16 }
    requires lengths { (length (A.wells a) ≡ wells) × (length (B.wells b) ≡ wells) }
    ensures exact { result ≡ distance_of number (A.wells a) (B.wells b) }
    ensures bound { result ≤ 1048560 }
{
    match wells {
        16 => at_width(number, a, b, 16),
        8 => at_width(number, a, b, 8),
        4 => at_width(number, a, b, 4),
        _ => at_width(number, a, b, wells),
    }
}
