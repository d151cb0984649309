// Growing a library: start, add, filing. Each answers with the length of the image that now stands in the buffer, or with a refusal, and then
// nothing was written.
#![tactic(auto)]

ghost use Rattle.std.specs.Prelude.{◌≡◌, true, false, MatchOption};
ghost use Rattle.profile.specs.Metric.{metric_number};
ghost use Rattle.checker.specs.Tests.{outside};
ghost use Rattle.build.specs.Calls.{StartGives, AddGives, FileGives};

use adding::strain::NewStrain;
use image::refusal::{Place, Refusal};
use image::shape::Shape;
use profile::metric::Metric;

mod offer; // offer.rt: rules 17 to 19

// The metric of this number: the C interface tells it in 32 bits.
fn metric_by_number(number: u32) -> Option<Metric>
    ensures { MatchOption result (outside 1 2 number ≡ true) (λ metric. (outside 1 2 number ≡ false) × (metric_number metric ≡ number)) }
{
    Metric::try_from(u8::try_from(number).ok()?).ok()
}

// Starts a library with one strain, in front of the buffer.
#[tactic(auto, unfolding(crate::specs::Calls::start_of, crate::specs::Rules::start_rules, image::specs::Answer::outcome), using(crate::proofs::Calls::judged))]
pub fn start(
    wells: u32,
    metric: u32,
    code: u32,
    profile: &[i16],
    buffer: &mut [u8],
) -> Result<usize, Refusal>
    ensures { StartGives wells metric code profile.now buffer.old result buffer.new }
{
    let wells = wells as usize;
    if checker::range::outside(1, 16, wells) {
        return Err(Refusal::Wells(Place::None));
    }
    let Some(metric) = metric_by_number(metric) else {
        return Err(Refusal::Metric(Place::None));
    };
    if profile.len() != wells {
        return Err(Refusal::NewProfile(Place::None));
    }
    if code == 0 {
        return Err(Refusal::NewCode(Place::None));
    }
    let shape = Shape {
        metric,
        wells,
        count: 1,
    };
    let size = shape.size();
    if buffer.len() < size {
        return Err(Refusal::Room(Place::None));
    }
    adding::begin::begin(buffer, shape, NewStrain { code, profile });
    Ok(size)
}

// Adds a strain to the library that is the first `stated` bytes of the buffer.
#[tactic(auto, unfolding(crate::specs::Calls::add_of, crate::specs::Rules::add_rules, crate::specs::Rules::room_rules, crate::specs::Steps::Offered, checker::specs::Check::check_of, image::specs::Answer::outcome), using(crate::proofs::Calls::judged))]
pub fn add(buffer: &mut [u8], stated: usize, code: u32, profile: &[i16]) -> Result<usize, Refusal>
    ensures { AddGives buffer.old stated code profile.now result buffer.new }
{
    if buffer.len() < stated {
        return Err(Refusal::Size(Place::None));
    }
    let library = checker::accept(&buffer[..stated])?;
    let strain = NewStrain { code, profile };
    let seat = offer::consider(&library, strain)?;
    if library.records.shape.count == 1024 {
        return Err(Refusal::Full(Place::None));
    }
    let grown = stated + (8 + 2 * profile.len());
    if buffer.len() < grown {
        return Err(Refusal::Room(Place::None));
    }
    adding::grow::grow(buffer, stated, strain, seat);
    Ok(grown)
}

// Files a library into the buffer: its strains, added in ascending order of code.
#[tactic(auto, unfolding(crate::specs::Calls::file_of, crate::specs::Rules::file_rules, checker::specs::Check::check_of, image::specs::Answer::outcome), using(crate::proofs::Calls::judged))]
pub fn file(image: &[u8], buffer: &mut [u8]) -> Result<usize, Refusal>
    ensures { FileGives image.now buffer.old result buffer.new }
{
    let library = checker::accept(image)?;
    if buffer.len() < image.len() {
        return Err(Refusal::Room(Place::None));
    }
    adding::filing::fill(&library, buffer);
    Ok(image.len())
}
