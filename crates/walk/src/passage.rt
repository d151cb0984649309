// A plate's way down the tree that was laid out, from one record within a bound to the next. Both searches go by it: the bound is the
// radius, or the worst distance kept.
ghost use Rattle.std.specs.Prelude.{◌≡◌, ◌+◌, ◌≤◌, ◌<◌, cond, leb, length};
ghost use Rattle.walk.specs.Weighed.{found_at, reach_at};

use crate::laid::Walk;
use crate::step::Step;
use profile::metric::Metric;
use profile::written_out::{Task, written_out};

#[derive(Clone, Copy)]
pub struct Met {
    pub node: usize, // its record number
    pub distance: u32, // its distance from the plate
}

#[derive(Clone, Copy)]
pub struct Passage<'a> {
    pub walk: Walk<'a>,
    pub plate: &'a [i16],
    pub place: usize, // where the walk goes on
    pub measured: usize, // how many records were measured before
    pub ghost fits: { length plate.now ≡ walk.library.records.shape.wells },
    pub ghost within: { place ≤ walk.library.records.shape.count },
    pub ghost few: { measured ≤ place },
}

impl<'a> Passage<'a> {
    ghost use Rattle.walk.specs.Meeting.{Meets, StopsFrom};

    // A record's distance from the plate.
    #[inline(always)]
    #[tactic(auto, using(profile::proofs::Reading::wells_length, crate::proofs::Steps::far_is))]
    fn far(&self, node: usize) -> u32
        requires { node < self.now.walk.library.records.shape.count }
        ensures exact { result ≡ (found_at self.now.walk.library.records.image.now self.now.plate.now node).distance }
        ensures bound { result ≤ 1048560 }
    {
        let records = self.walk.library.records;
        profile::distance::distance(
            records.shape.metric,
            records.profile(node),
            self.plate,
            records.shape.wells,
        )
    }

    // Where the walk goes on from a record that is further than the bound by `more`: to its children, if its reach is not less, or else
    // past all that hangs below it.
    #[inline(always)]
    #[tactic(auto, using(profile::proofs::Levels::level_span))]
    fn onward(&self, place: usize, step: Step, more: u32) -> usize
        requires node { step.node < self.now.walk.library.records.shape.count }
        requires place { place < self.now.walk.library.records.shape.count }
        ensures { result ≡ cond (leb more (reach_at self.now.walk.library.records.image.now step.node)) (place + 1) step.behind }
    {
        let level = self.walk.library.records.level(usize::from(step.node));
        if more < profile::level::cover_limit(level) {
            place + 1
        } else {
            usize::from(step.behind)
        }
    }

    // Records further than the bound are stepped past, and one that is further by more than its reach with all that hangs below it.
    #[inline(always)]
    #[tactic(auto, using(crate::proofs::Steps::node_is, crate::proofs::Steps::node_in))]
    fn stop(&self, bound: u32) -> Stop
        ensures { StopsFrom self.now bound result }
    {
        let mut place = self.place;
        let mut measured = self.measured;
        let mut distance = 0;
        while let Some(step) = self.walk.steps.get(place) {
            distance = self.far(usize::from(step.node));
            if distance <= bound {
                break;
            }
            place = self.onward(place, *step, distance - bound);
            measured += 1;
        }
        Stop {
            place,
            measured,
            distance,
        }
    }

    // The same, with metric and width written out. It stands alone, so that registers hold what the loop needs and nothing else.
    #[inline(never)]
    fn next_stop(&self, bound: u32) -> Stop
        ensures { StopsFrom self.now bound result }
    {
        let shape = self.walk.library.records.shape;
        let stretch = Stretch {
            passage: *self,
            bound,
        };
        written_out(stretch, shape.metric, shape.wells)
    }

    // The next record that is no further than the bound.
    #[tactic(auto, using(crate::proofs::Steps::node_is, crate::proofs::Steps::node_in))]
    pub fn next_within(&mut self, bound: u32) -> Option<Met>
        ensures walk { self.new.walk ≡ self.old.walk }
        ensures plate { self.new.plate ≡ self.old.plate }
        ensures meets { Meets self.old bound self.new.place self.new.measured result }
    {
        let stop = self.next_stop(bound);
        self.place = stop.place;
        self.measured = stop.measured;
        let step = self.walk.steps.get(stop.place)?;
        self.place += 1;
        self.measured += 1;
        Some(Met {
            node: usize::from(step.node),
            distance: stop.distance,
        })
    }
}

// The way to the next record within a bound.
#[derive(Clone, Copy)]
struct Stretch<'a> {
    passage: Passage<'a>,
    bound: u32,
}

// Where it ends: at a record within the bound, or behind all.
#[derive(Clone, Copy)]
struct Stop {
    place: usize, // the count where no record is within the bound; `next_within` makes an Option of it
    measured: usize,
    distance: u32, // of the record that was measured last; an Option of it in the loop took a third longer at 4 wells
}

impl Task for Stretch<'_> {
    ghost use Rattle.walk.specs.Meeting.{StopsFrom};

    type Output = Stop;

    ghost can_run = { λ s metric wells. let own = s.passage.walk.library.records.shape in (metric ≡ own.metric) × (wells ≡ own.wells) };

    ghost run_gives = { λ s _ _ stop. StopsFrom s.passage s.bound stop };

    #[inline(always)]
    fn run(self, metric: Metric, wells: usize) -> Stop {
        let Passage {
            walk,
            plate,
            place,
            measured,
        } = self.passage;
        let passage = Passage {
            walk: walk.written(metric, wells),
            plate,
            place,
            measured,
        };
        passage.stop(self.bound)
    }
}
