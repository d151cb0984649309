// The plates of a sitting: the tree is laid out once, and each plate gets its places.
ghost use Rattle.std.specs.Prelude.{◌≡◌, ◌+◌, ◌*◌, ◌≤◌, length};
ghost use Rattle.search.specs.Calls.{served, code_in, distance_in};
ghost use Rattle.search.specs.Ranked.{plates_in};
ghost use Rattle.search.specs.Steps.{Fills};

use image::accepted::Accepted;
use ranking::asked::Asked;
use walk::laid::Walk;
use walk::step::Step;

// A plate's places are filled, from place `at` on.
fn serve_plate<'a>(
    walk: &Walk<'a>,
    plate: &'a [i16],
    asked: Asked,
    codes: &mut [u32],
    distances: &mut [u32],
    at: usize,
)
    requires fits { length plate.now ≡ walk.now.library.records.shape.wells }
    requires codes_room { at + asked.many ≤ length codes.old }
    requires distances_room { at + asked.many ≤ length distances.old }
    ensures { Fills walk.now.library.records.image.now plate.now asked.many at codes.old distances.old codes.new distances.new }
{
    let best = crate::nearest::nearest(walk, plate, asked);
    crate::put::put(best.places(), &mut codes[at..], &mut distances[at..]);
}

// All plates' places.
pub fn serve(
    library: &Accepted<'_>,
    plates: &[i16],
    asked: Asked,
    codes: &mut [u32],
    distances: &mut [u32],
)
    requires codes_room { plates_in library.now.records.image.now plates.now * asked.many ≤ length codes.old }
    requires distances_room { plates_in library.now.records.image.now plates.now * asked.many ≤ length distances.old }
    ensures codes { codes.new ≡ served library.now.records.image.now plates.now asked.many code_in codes.old }
    ensures distances { distances.new ≡ served library.now.records.image.now plates.now asked.many distance_in distances.old }
{
    let mut steps = [Step::default(); 1024];
    let walk = Walk::of(*library, &mut steps);
    for (j, plate) in plates.chunks_exact(library.records.shape.wells).enumerate() {
        serve_plate(&walk, plate, asked, codes, distances, j * asked.many);
    }
}
