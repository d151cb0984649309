// Rule 11: the root's parent is itself, and every other level is below the parent's.
ghost use Rattle.std.specs.Prelude.{◌≡◌, ◌<◌};
ghost use Rattle.image.specs.Fields.{count_of};
ghost use Rattle.image.specs.Verdict.{at_first};
ghost use Rattle.checker.specs.Tests.{bad_level};

use crate::noded::Noded;
use image::refusal::Place;

impl<'a> Noded<'a> {
    #[tactic(auto, unfolding(crate::specs::Tests::bad_level))]
    fn is_bad_level(&self, i: usize) -> bool
        requires { i < self.now.headed.records.shape.count }
        ensures { result ≡ bad_level self.now.headed.records.image.now i }
    {
        let parent = self.parent(i);
        if i == self.headed.root {
            parent != i
        } else {
            self.headed.records.level(parent) <= self.headed.records.level(i)
        }
    }

    // The first record at which it fails. The chain is two calls of the library, and stands in each such rule: a function for both would only
    // hand on what its test said.
    pub fn bad_level(&self) -> Option<Place>
        ensures { result ≡ at_first (count_of self.now.headed.records.image.now) (bad_level self.now.headed.records.image.now) }
    {
        (0..self.headed.records.shape.count)
            .find(|i| self.is_bad_level(*i))
            .map(Place::Record)
    }
}
