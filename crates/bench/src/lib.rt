// Doors for measuring: what lies inside the library, opened to C and Rust so that it can be compared and timed beside plain code.
// The product's own door is another crate. A caller here keeps what each `requires` asks.
#![tactic(auto)]

ghost use Rattle.std.specs.Prelude.{◌≡◌, ◌+◌, ◌*◌, ◌≤◌, ◌<◌, length};
ghost use Rattle.profile.specs.Bytes.{wells_at};
ghost use Rattle.profile.specs.Distance.{distance};
ghost use Rattle.profile.specs.Level.{fitting_level};
ghost use Rattle.profile.specs.Metric.{metric_number};
ghost use Rattle.bench.specs.Row.{first_under};

use profile::metric::Metric;
use profile::source::{Profile, Stored};
use profile::written_out::{Task, written_out};

// The fitting level of a distance.
#[unsafe(no_mangle)]
pub extern "C" fn kwb_level(d: u32) -> i32
    requires { 0 < d }
    ensures { result ≡ fitting_level d }
{
    profile::level::fitting_level(d)
}

// The distance of two lists of wells, and 0 where the number is no metric's.
#[unsafe(no_mangle)]
#[tactic(auto, using(profile::proofs::Distances::distance_other))]
pub extern "C" fn kwb_lists(metric: u8, a: &[i16], b: &[i16]) -> u32
    requires { (length a.now ≤ 16) × (length b.now ≡ length a.now) }
    ensures { result ≡ distance metric a.now b.now }
{
    profile::distance::by_number(metric, a, b, a.len())
}

// A row of distances, as a check or a scan makes them. Of `count` profiles, one after the other in the bytes from `from` on, the first
// that lies nearer to another than `limit`: its distance, or the limit where none does, as the C interface has it.
#[derive(Clone, Copy)]
struct Row<'a, P> {
    image: &'a [u8],
    from: usize,
    other: P,
    count: usize,
    limit: u32,
}

impl<'a, P: Profile + Copy> Task for Row<'a, P> {
    type Output = u32;

    ghost can_run = { λ row _ wells. (wells ≤ 16) × (length (P.wells row.other) ≡ wells) × (row.from + row.count * (2 * wells) ≤ length row.image.now) };

    ghost run_gives = { λ row metric wells result. result ≡ first_under (λ j. distance (metric_number metric) (wells_at row.image.now (row.from + j * (2 * wells)) wells) (P.wells row.other)) row.limit 0 row.count };

    #[inline(always)]
    #[tactic(auto, using(profile::proofs::Reading::wells_length))]
    fn run(self, metric: Metric, wells: usize) -> u32 {
        let Row {
            image,
            from,
            other,
            count,
            limit,
        } = self;
        for j in 0..count {
            let next = Stored {
                image,
                at: from + j * (2 * wells),
                wells,
            };
            let d = profile::distance::distance(metric, next, other, wells);
            if d < limit {
                return d;
            }
        }
        limit
    }
}

// Of the distances by a number that is no metric's, which are all 0.
#[tactic(auto, using(crate::proofs::Rows::zeros), unfolding(crate::specs::Row::first_under))]
fn no_metric_row(count: usize, limit: u32) -> u32
    ensures { result ≡ first_under (λ _. 0) limit 0 count }
{
    if count == 0 { limit } else { 0 }
}

// A row of distances to a plate.
#[unsafe(no_mangle)]
#[tactic(auto, using(profile::proofs::Distances::distance_other, crate::proofs::Rows::same_row))]
pub extern "C" fn kwb_plate_row(
    metric: u8,
    image: &[u8],
    from: usize,
    plate: &[i16],
    count: usize,
    limit: u32,
) -> u32
    requires { (length plate.now ≤ 16) × (from + count * (2 * length plate.now) ≤ length image.now) }
    ensures { result ≡ first_under (λ j. distance metric (wells_at image.now (from + j * (2 * length plate.now)) (length plate.now)) plate.now) limit 0 count }
{
    match Metric::try_from(metric) {
        Ok(metric) => {
            let row = Row {
                image,
                from,
                other: plate,
                count,
                limit,
            };
            written_out(row, metric, plate.len())
        }
        Err(_) => no_metric_row(count, limit),
    }
}

// A row of distances to the profile at `at` of the same bytes.
#[unsafe(no_mangle)]
pub extern "C" fn kwb_pair_row(
    metric: u8,
    image: &[u8],
    at: usize,
    from: usize,
    wells: usize,
    count: usize,
    limit: u32,
) -> u32
    requires { (wells ≤ 16) × (at + 2 * wells ≤ length image.now) × (from + count * (2 * wells) ≤ length image.now) }
    ensures { result ≡ first_under (λ j. distance metric (wells_at image.now at wells) (wells_at image.now (from + j * (2 * wells)) wells)) limit 0 count }
{
    match Metric::try_from(metric) {
        Ok(metric) => {
            let row = Row {
                image,
                from,
                other: Stored { image, at, wells },
                count,
                limit,
            };
            written_out(row, metric, wells)
        }
        Err(_) => no_metric_row(count, limit),
    }
}
