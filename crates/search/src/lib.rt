// The searches: the nearest strains for a sitting of plates, and all strains within a radius of a plate. Each checks the library once, and
// answers with what it found or with a refusal, and then nothing was written.
#![tactic(auto)]

ghost use Rattle.search.specs.Calls.{SittingGives, WithinGives};

use image::refusal::Refusal;

pub mod sit; // sit.rt: a sitting over an accepted library
mod inside; // inside.rt: the strains within a radius
mod nearest; // nearest.rt: the nearest strains of one plate
mod put; // put.rt: what was found, written
mod radius; // radius.rt: the search within a radius of an accepted library
mod serve; // serve.rt: the plates of a sitting, one after the other

// What a search within a radius tells.
#[derive(Clone, Copy, Debug, PartialEq, Eq)]
pub struct Tally {
    pub strains: usize, // how many lie within it
    pub measured: usize, // how many profiles were measured
}

// The k nearest strains of each plate, by distance and then code. Tells how many of each plate's places hold a strain.
pub fn sitting(
    image: &[u8],
    plates: &[i16],
    k: u32,
    codes: &mut [u32],
    distances: &mut [u32],
) -> Result<usize, Refusal>
    ensures { SittingGives image.now plates.now k codes.old distances.old result codes.new distances.new }
{
    let library = checker::accept(image)?;
    sit::sit(&library, plates, k, codes, distances)
}

// The strains within a radius of a plate, by distance and then code.
pub fn within(
    image: &[u8],
    plate: &[i16],
    radius: u32,
    codes: &mut [u32],
    distances: &mut [u32],
) -> Result<Tally, Refusal>
    ensures { WithinGives image.now plate.now radius codes.old distances.old result codes.new distances.new }
{
    let library = checker::accept(image)?;
    radius::around(&library, plate, radius, codes, distances)
}
