// Rule 13: any two records lie further apart than 2^m, m being the lower of their levels. Every pair is measured, so the inner loop is
// kept tight: metric and width are written out above it, and the later record's limit is tried before the earlier one's is read.
ghost use Rattle.std.specs.Prelude.{◌≡◌, ◌<◌};
ghost use Rattle.profile.specs.Level.{cover_limit};
ghost use Rattle.image.specs.Fields.{level_at, count_of};
ghost use Rattle.image.specs.First.{first_some};
ghost use Rattle.image.specs.Verdict.{at_pair};
ghost use Rattle.checker.specs.Tests.{too_near};

use crate::headed::Headed;
use crate::noded::Noded;
use image::records::Records;
use image::refusal::Place;
use image::shape::Shape;
use profile::metric::Metric;
use profile::written_out::{Task, written_out};

impl<'a> Noded<'a> {
    // Whether an earlier record lies too near to a later one, whose cover limit is given.
    #[inline(always)]
    #[tactic(auto, unfolding(crate::specs::Tests::too_near), using(profile::proofs::Levels::cover_lower, std::proofs::lemmas::Bool::Decides::nat_tests))]
    fn is_too_near(&self, later: usize, limit: u32, earlier: usize) -> bool
        requires later_in { later < self.now.headed.records.shape.count }
        requires earlier_in { earlier < self.now.headed.records.shape.count }
        requires limit { limit ≡ cover_limit (level_at self.now.headed.records.image.now later) }
        ensures { result ≡ too_near self.now.headed.records.image.now later earlier }
    {
        let double = 2 * self.headed.apart(later, earlier);
        double <= limit && double <= self.cover_limit(earlier)
    }

    // The first earlier record that lies too near to a later one.
    #[inline(always)]
    #[tactic(auto, using(image::proofs::Searches::searches))]
    fn first_near(&self, later: usize) -> Option<usize>
        requires { later < self.now.headed.records.shape.count }
        ensures { result ≡ first_some later (too_near self.now.headed.records.image.now later) }
    {
        let limit = self.cover_limit(later);
        // a loop, since `find` is slower: its closure is not inlined, and a check takes three times as long
        for earlier in 0..later {
            if self.is_too_near(later, limit, earlier) {
                return Some(earlier);
            }
        }
        None
    }

    // The first later record that has such an earlier one.
    #[inline(always)]
    #[tactic(auto, using(image::proofs::Searches::searches))]
    fn first_pair(&self) -> Option<Place>
        ensures { result ≡ at_pair (count_of self.now.headed.records.image.now) (too_near self.now.headed.records.image.now) }
    {
        for later in 0..self.headed.records.shape.count {
            if let Some(earlier) = self.first_near(later) {
                return Some(Place::Pair { earlier, later });
            }
        }
        None
    }

    // The same, with the metric and the width written out. Inlined, it would be taken for rare, and its loops would not be aligned.
    #[inline(never)]
    pub fn too_near(&self) -> Option<Place>
        ensures { result ≡ at_pair (count_of self.now.headed.records.image.now) (too_near self.now.headed.records.image.now) }
    {
        let shape = self.headed.records.shape;
        written_out(Separation(*self), shape.metric, shape.wells)
    }
}

// What is done by a metric and a width that stand in the code.
#[derive(Clone, Copy)]
struct Separation<'a>(Noded<'a>);

impl Task for Separation<'_> {
    type Output = Option<Place>;

    ghost can_run = { λ s metric wells. (metric ≡ s.0.headed.records.shape.metric) × (wells ≡ s.0.headed.records.shape.wells) };

    ghost run_gives = { λ s _ _ place. place ≡ at_pair (count_of s.0.headed.records.image.now) (too_near s.0.headed.records.image.now) };

    #[inline(always)]
    fn run(self, metric: Metric, wells: usize) -> Option<Place> {
        let Headed { records, root } = self.0.headed;
        let shape = Shape {
            metric,
            wells,
            count: records.shape.count,
        };
        let records = Records {
            image: records.image,
            shape,
        };
        let noded = Noded {
            headed: Headed { records, root },
        };
        noded.first_pair()
    }
}
