// The search within a radius of an accepted library: rules 14 and 16, and then the strains.
ghost use Rattle.search.specs.Calls.{AroundGives};

use crate::Tally;
use image::accepted::Accepted;
use image::refusal::{Place, Refusal};

pub fn around(
    library: &Accepted<'_>,
    plate: &[i16],
    radius: u32,
    codes: &mut [u32],
    distances: &mut [u32],
) -> Result<Tally, Refusal>
    ensures { AroundGives library.now.records.image.now plate.now radius codes.old distances.old result codes.new distances.new }
{
    let shape = library.records.shape;
    if plate.len() != shape.wells {
        return Err(Refusal::Plate(Place::None));
    }
    if codes.len().min(distances.len()) < shape.count {
        return Err(Refusal::Room(Place::None));
    }
    Ok(crate::inside::list(library, plate, radius, codes, distances))
}
