// Rules 9 to 13, in their order.
ghost use Rattle.std.specs.Prelude.{◌≡◌};
ghost use Rattle.image.specs.Verdict.{judge};
ghost use Rattle.image.specs.Answer.{verdict_of};
ghost use Rattle.checker.specs.Check.{tree_rules, record_rules};

use crate::headed::Headed;
use crate::noded::Noded;
use image::refusal::Refusal;

impl<'a> Headed<'a> {
    // Rules 9 to 13.
    #[tactic(auto, unfolding(crate::specs::Check::record_rules), using(image::proofs::Verdicts::verdicts, crate::proofs::Passed::nodes))]
    pub fn record_rules(&self) -> Result<(), Refusal>
        ensures { verdict_of result ≡ judge (record_rules self.now.records.image.now) }
    {
        if let Some(place) = self.bad_node() {
            return Err(Refusal::Node(place));
        }
        if let Some(place) = self.equal_codes() {
            return Err(Refusal::EqualCodes(place));
        }
        Noded { headed: *self }.tree_rules()
    }
}

impl<'a> Noded<'a> {
    // Rules 11 to 13.
    #[tactic(auto, unfolding(crate::specs::Check::tree_rules), using(image::proofs::Verdicts::verdicts))]
    pub fn tree_rules(&self) -> Result<(), Refusal>
        ensures { verdict_of result ≡ judge (tree_rules self.now.headed.records.image.now) }
    {
        if let Some(place) = self.bad_level() {
            return Err(Refusal::Level(place));
        }
        if let Some(place) = self.bad_cover() {
            return Err(Refusal::Cover(place));
        }
        if let Some(place) = self.too_near() {
            return Err(Refusal::Separation(place));
        }
        Ok(())
    }
}
