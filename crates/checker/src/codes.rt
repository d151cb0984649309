// Rule 10: two equal codes. A mark for each code's last 11 bits lets most records pass without a look at the earlier ones.
ghost use Rattle.std.specs.Prelude.{◌≡◌, ◌<◌};
ghost use Rattle.image.specs.Fields.{count_of};
ghost use Rattle.image.specs.First.{first_some};
ghost use Rattle.image.specs.Verdict.{at_pair};
ghost use Rattle.checker.specs.Tests.{same_code};

use crate::headed::Headed;
use image::refusal::Place;

impl<'a> Headed<'a> {
    // The first earlier record with the code of a later one.
    fn first_same(&self, later: usize) -> Option<usize>
        requires { later < self.now.records.shape.count }
        ensures { result ≡ first_some later (same_code self.now.records.image.now later) }
    {
        let code = self.records.code(later);
        (0..later).find(|earlier| code == self.records.code(*earlier))
    }

    // The first later record that has such an earlier one.
    #[tactic(auto, using(image::proofs::Searches::searches, crate::proofs::Marks::marks))]
    pub fn equal_codes(&self) -> Option<Place>
        ensures { result ≡ at_pair (count_of self.now.records.image.now) (same_code self.now.records.image.now) }
    {
        let mut marked = [false; 2048];
        for later in 0..self.records.shape.count {
            let slot = (self.records.code(later) % 2048) as usize;
            let seen = marked[slot];
            if seen && let Some(earlier) = self.first_same(later) {
                return Some(Place::Pair { earlier, later });
            }
            marked[slot] = true;
        }
        None
    }
}
