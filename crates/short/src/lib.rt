// The short call, for a host program in C: the five nearest strains of one plate that comes in bytes.
#![tactic(auto)]

ghost use Rattle.std.specs.Prelude.{◌≡◌, ◌*◌, ◌≤◌, length};
ghost use Rattle.std.proofs.lemmas.List.Edits.{sets};
ghost use Rattle.image.specs.Answer.{handed};
ghost use Rattle.short.specs.Short.{by_turns, served_of, short_of};

use image::accepted::Accepted;
use image::refusal::{Place, Refusal};

// Codes and distances by turns.
fn write(out: &mut [u8], codes: &[u32], distances: &[u32])
    requires { (length distances.now ≡ length codes.now) × (8 * length codes.now ≤ length out.old) }
    ensures { out.new ≡ sets out.old 0 (by_turns codes.now distances.now) }
{
    // by number, since it gives the place too
    for i in 0..codes.len() {
        writer::number::put_u32(out, 8 * i, codes[i]);
        writer::number::put_u32(out, 8 * i + 4, distances[i]);
    }
}

// Over an accepted library: rules 14 and 16, and then the five nearest.
fn serve(library: &Accepted<'_>, plate: &[u8], out: &mut [u8]) -> Result<usize, Refusal>
    ensures { handed result out.new ≡ served_of library.now.records.image.now plate.now out.old }
{
    let wells = library.records.shape.wells;
    if plate.len() != 2 * wells {
        return Err(Refusal::Plate(Place::None));
    }
    if out.len() < 40 {
        return Err(Refusal::Room(Place::None));
    }
    let mut values = [0i16; 16];
    order::wells::read(plate, 0, wells, &mut values);
    let mut codes = [0u32; 5];
    let mut distances = [0u32; 5];
    // one plate, five neighbours and room for five: nothing is refused
    search::sit::sit(library, &values[..wells], 5, &mut codes, &mut distances).unwrap();
    write(out, &codes, &distances);
    Ok(40)
}

// Tells how many bytes it wrote.
pub fn short(image: &[u8], plate: &[u8], out: &mut [u8]) -> Result<usize, Refusal>
    ensures { handed result out.new ≡ short_of image.now plate.now out.old }
{
    let library = checker::accept(image)?;
    serve(&library, plate, out)
}
