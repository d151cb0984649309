// The record that takes a new strain: the nearest that can, with the lowest code on a tie.
ghost use Rattle.std.specs.Prelude.{◌≤◌};

use crate::takers::Takers;
use image::header::Header;

// A record that may become a strain's parent.
#[derive(Clone, Copy)]
pub struct Seat {
    pub parent: usize,
    pub distance: u32,
    pub code: u32,
    pub ghost near: { distance ≤ 1048560 },
}

impl Takers<'_, '_> {
    ghost use Rattle.std.specs.Prelude.{◌≡◌, ◌<◌};
    ghost use Rattle.profile.specs.Metric.{metric_number};
    ghost use Rattle.content.specs.Content.{record_at, first_of, nth};
    ghost use Rattle.content.specs.Adding.{parent_for};
    ghost use Rattle.adding.specs.Steps.{Seated};

    // Record i as a seat.
    fn seat_at(&self, i: usize) -> Seat
        requires { i < self.now.filled }
        ensures { Seated (metric_number self.now.records.shape.metric) self.now.profile.now (record_at self.now.records.image.now) result i }
    {
        let shape = self.records.shape;
        Seat {
            parent: i,
            distance: self.distance(shape.metric, shape.wells, i),
            code: self.records.code(i),
        }
    }

    // Of the root and the records that are near enough.
    pub fn nearest(&self) -> Seat
        ensures { Seated (metric_number self.now.records.shape.metric) self.now.profile.now (nth (first_of self.now.records.image.now self.now.filled).records) result (parent_for (first_of self.now.records.image.now self.now.filled) self.now.profile.now) }
    {
        let header = Header {
            image: self.records.image,
        };
        let mut best = self.seat_at(header.root());
        // each search for the next goes on behind the last; an iterator of its own would say the same in more lines
        let mut from = 0;
        while let Some(i) = self.next_near(from) {
            best = std::cmp::min_by_key(best, self.seat_at(i), |seat| (seat.distance, seat.code));
            from = i + 1;
        }
        best
    }
}
