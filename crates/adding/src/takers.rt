// The records that are near enough to take a new strain. Few are, and every record is measured.
ghost use Rattle.std.specs.Prelude.{◌≡◌, ◌≤◌, ◌<◌, length};
ghost use Rattle.profile.specs.Metric.{metric_number};
ghost use Rattle.content.specs.Content.{record_at};
ghost use Rattle.content.specs.Adding.{distance_to, near_enough};
ghost use Rattle.adding.specs.Filled.{Filled};
ghost use Rattle.adding.specs.Near.{NextNear};

use image::accepted::Accepted;
use image::records::Records;
use profile::metric::Metric;
use profile::written_out::{Task, written_out};

// A new strain's profile, and the records that may take it: those that are filled, of the library that it is for.
#[derive(Clone, Copy)]
pub struct Takers<'l, 'p> {
    pub records: Records<'l>,
    pub filled: usize,
    pub profile: &'p [i16],
    pub ghost are_filled: { Filled records.image.now (metric_number records.shape.metric) records.shape.wells records.shape.count filled },
    pub ghost fits: { length profile.now ≡ records.shape.wells },
}

impl<'l, 'p> Takers<'l, 'p> {
    // All records of an accepted library.
    pub fn of(library: &Accepted<'l>, profile: &'p [i16]) -> Takers<'l, 'p>
        requires { length profile.now ≡ library.now.records.shape.wells }
        ensures records { result.records ≡ library.now.records }
        ensures filled { result.filled ≡ library.now.records.shape.count }
        ensures profile { result.profile.now ≡ profile.now }
    {
        Takers {
            records: library.records,
            filled: library.records.shape.count,
            profile,
        }
    }

    // How far record i lies from the profile. Where it must be fast, the caller writes out the library's metric and width.
    #[inline(always)]
    #[tactic(auto, unfolding(content::specs::Adding::distance_to, image::specs::Fields::profile_at), using(profile::proofs::Reading::wells_length))]
    pub(crate) fn distance(&self, metric: Metric, wells: usize, i: usize) -> u32
        requires metric { metric ≡ self.now.records.shape.metric }
        requires wells { wells ≡ self.now.records.shape.wells }
        requires inside { i < self.now.filled }
        ensures exact { result ≡ distance_to (metric_number metric) self.now.profile.now (record_at self.now.records.image.now i) }
        ensures bound { result ≤ 1048560 }
    {
        profile::distance::distance(metric, self.records.profile(i), self.profile, wells)
    }

    // Whether the profile lies within record i's limit.
    #[inline(always)]
    #[tactic(auto, unfolding(content::specs::Adding::near_enough))]
    fn near_enough(&self, metric: Metric, wells: usize, i: usize) -> bool
        requires metric { metric ≡ self.now.records.shape.metric }
        requires wells { wells ≡ self.now.records.shape.wells }
        requires inside { i < self.now.filled }
        ensures { result ≡ near_enough (metric_number metric) self.now.profile.now (record_at self.now.records.image.now i) }
    {
        2 * self.distance(metric, wells, i) <= profile::level::cover_limit(self.records.level(i))
    }

    // The first record from `from` on that is near enough.
    pub fn next_near(&self, from: usize) -> Option<usize>
        ensures { NextNear (metric_number self.now.records.shape.metric) self.now.profile.now (record_at self.now.records.image.now) self.now.filled from result }
    {
        let shape = self.records.shape;
        written_out(
            Looking {
                takers: *self,
                from,
            },
            shape.metric,
            shape.wells,
        )
    }
}

// `next_near`, whose loop is kept tight.
struct Looking<'l, 'p> {
    takers: Takers<'l, 'p>,
    from: usize,
}

impl Task for Looking<'_, '_> {
    type Output = Option<usize>;

    ghost can_run = { λ task metric wells. (metric ≡ task.takers.records.shape.metric) × (wells ≡ task.takers.records.shape.wells) };

    ghost run_gives = { λ task metric _ result. NextNear (metric_number metric) task.takers.profile.now (record_at task.takers.records.image.now) task.takers.filled task.from result };

    #[inline(always)]
    fn run(self, metric: Metric, wells: usize) -> Option<usize> {
        let Looking { takers, from } = self;
        // a loop: of a closure the compiler keeps one body for all widths
        for i in from..takers.filled {
            if takers.near_enough(metric, wells, i) {
                return Some(i);
            }
        }
        None
    }
}
