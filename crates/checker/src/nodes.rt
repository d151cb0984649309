// Rule 9: a field of a record that cannot be.
ghost use Rattle.std.specs.Prelude.{◌≡◌, ◌<◌};
ghost use Rattle.image.specs.Fields.{count_of};
ghost use Rattle.image.specs.Verdict.{at_first};
ghost use Rattle.checker.specs.Tests.{bad_node};

use crate::headed::Headed;
use image::refusal::Place;

impl<'a> Headed<'a> {
    #[tactic(auto, unfolding(crate::specs::Tests::bad_node))]
    fn is_bad_node(&self, i: usize) -> bool
        requires { i < self.now.records.shape.count }
        ensures { result ≡ bad_node self.now.records.image.now i }
    {
        self.records.code(i) == 0
            || self.records.shape.count <= self.records.parent(i)
            || 21 < self.records.level_byte(i)
            || self.records.spare(i) != 0
    }

    // The first record at which it fails. The chain is two calls of the library, and stands in each such rule: a function for both would only
    // hand on what its test said.
    pub fn bad_node(&self) -> Option<Place>
        ensures { result ≡ at_first (count_of self.now.records.image.now) (bad_node self.now.records.image.now) }
    {
        (0..self.records.shape.count)
            .find(|i| self.is_bad_node(*i))
            .map(Place::Record)
    }
}
