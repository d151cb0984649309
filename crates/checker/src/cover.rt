// Rule 12: every record but the root lies within 2^(level + 1) of its parent.
ghost use Rattle.std.specs.Prelude.{◌≡◌, ◌<◌};
ghost use Rattle.image.specs.Fields.{count_of};
ghost use Rattle.image.specs.Verdict.{at_first};
ghost use Rattle.checker.specs.Tests.{bad_cover};

use crate::noded::Noded;
use image::refusal::Place;

impl<'a> Noded<'a> {
    #[tactic(auto, unfolding(crate::specs::Tests::bad_cover))]
    fn is_bad_cover(&self, i: usize) -> bool
        requires { i < self.now.headed.records.shape.count }
        ensures { result ≡ bad_cover self.now.headed.records.image.now i }
    {
        i != self.headed.root && self.cover_limit(i) < self.headed.apart(self.parent(i), i)
    }

    // The first record at which it fails. The chain is two calls of the library, and stands in each such rule: a function for both would only
    // hand on what its test said.
    pub fn bad_cover(&self) -> Option<Place>
        ensures { result ≡ at_first (count_of self.now.headed.records.image.now) (bad_cover self.now.headed.records.image.now) }
    {
        (0..self.headed.records.shape.count)
            .find(|i| self.is_bad_cover(*i))
            .map(Place::Record)
    }
}
