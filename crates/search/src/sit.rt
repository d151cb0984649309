// A sitting over an accepted library: rules 14 to 16, and then the plates.
ghost use Rattle.search.specs.Calls.{SatGives};

use image::accepted::Accepted;
use image::refusal::{Place, Refusal};
use ranking::asked::Asked;

pub fn sit(
    library: &Accepted<'_>,
    plates: &[i16],
    k: u32,
    codes: &mut [u32],
    distances: &mut [u32],
) -> Result<usize, Refusal>
    ensures { SatGives library.now.records.image.now plates.now k codes.old distances.old result codes.new distances.new }
{
    let wells = library.records.shape.wells;
    let many = plates.len() / wells;
    if (plates.len() % wells != 0) | checker::range::outside(1, 64, many) {
        return Err(Refusal::Plate(Place::None));
    }
    let k = k as usize;
    if checker::range::outside(1, 32, k) {
        return Err(Refusal::Neighbours(Place::None));
    }
    if codes.len().min(distances.len()) < many * k {
        return Err(Refusal::Room(Place::None));
    }
    crate::serve::serve(library, plates, Asked { many: k }, codes, distances);
    Ok(k.min(library.records.shape.count))
}
