// The check of a library: is it laid out as it should be, and does its tree satisfy the published definition?
#![tactic(auto)]

ghost use Rattle.std.specs.Prelude.{◌≡◌, IfOk};
ghost use Rattle.image.specs.Answer.{verdict_of};
ghost use Rattle.checker.specs.Check.{check_of, CheckGives};

use image::accepted::Accepted;
use image::header::Header;
use image::refusal::{Place, Refusal};

mod codes; // codes.rt: rule 10
mod cover; // cover.rt: rule 12
mod headed; // headed.rt: an image past rule 8
mod header; // header.rt: rules 2 to 8
mod levels; // levels.rt: rule 11
mod noded; // noded.rt: an image past rule 9
mod nodes; // nodes.rt: rule 9
pub mod range; // range.rt: numbers outside a range
mod records; // records.rt: rules 9 to 13 in their order
mod separation; // separation.rt: rule 13

// Accepts a library, or refuses it by the first rule that applies, each tried over all records before the next.
pub fn check(image: &[u8]) -> Result<(), Refusal>
    ensures { CheckGives image.now result }
{
    accept(image).map(|_| ())
}

// The same, and what an accepted library's header says.
#[tactic(auto, unfolding(crate::specs::Check::check_of, crate::specs::Check::check_rules), using(image::proofs::Verdicts::verdicts))]
pub fn accept(image: &[u8]) -> Result<Accepted<'_>, Refusal>
    ensures verdict { verdict_of result ≡ check_of image.now }
    ensures library { IfOk result (λ library. library.records.image.now ≡ image.now) }
{
    if range::outside(16, 40976, image.len()) {
        return Err(Refusal::Size(Place::None));
    }
    let headed = header::rules(Header { image })?;
    Ok(Accepted {
        records: headed.records,
        root: headed.root,
    })
}
