// The strains within a radius of a plate: down the tree that was laid out, past all that hangs below a record further than the radius and
// its reach.
ghost use Rattle.std.specs.Prelude.{◌≡◌, ◌≤◌, length};
ghost use Rattle.search.specs.Steps.{Gathers, Lists};

use crate::Tally;
use image::accepted::Accepted;
use walk::laid::Walk;
use walk::step::Step;

// Their ranks, in the order of the walk, in the front of an array: there is no heap.
fn gather<'a>(walk: &Walk<'a>, plate: &'a [i16], radius: u32, ranks: &mut [u64]) -> Tally
    requires fits { length plate.now ≡ walk.now.library.records.shape.wells }
    requires room { walk.now.library.records.shape.count ≤ length ranks.old }
    ensures { Gathers walk.now.library.records.image.now plate.now radius ranks.old ranks.new result }
{
    let mut passage = walk.passage(plate);
    let mut strains = 0;
    while let Some(met) = passage.next_within(radius) {
        let code = walk.library.records.code(met.node);
        ranks[strains] = ranking::found::rank(met.distance, code);
        strains += 1;
    }
    Tally {
        strains,
        measured: passage.measured,
    }
}

// Their codes and distances, by distance and then code. The ranks are in a function of their own, so that the compiler can put them where
// the tree's links were.
fn sorted<'a>(
    walk: &Walk<'a>,
    plate: &'a [i16],
    radius: u32,
    codes: &mut [u32],
    distances: &mut [u32],
) -> Tally
    requires fits { length plate.now ≡ walk.now.library.records.shape.wells }
    requires codes_room { walk.now.library.records.shape.count ≤ length codes.old }
    requires distances_room { walk.now.library.records.shape.count ≤ length distances.old }
    ensures { Lists walk.now.library.records.image.now plate.now radius codes.old distances.old codes.new distances.new result }
{
    let mut ranks = [0; 1024];
    let tally = gather(walk, plate, radius, &mut ranks);
    ranking::sort::sort(&mut ranks, tally.strains);
    crate::put::put(&ranks[..tally.strains], codes, distances);
    tally
}

// Lays out the tree, and lists them. Codes and distances are two lent slices, as the C interface has them, with room in each; every function hands
// both on as they are.
pub fn list(
    library: &Accepted<'_>,
    plate: &[i16],
    radius: u32,
    codes: &mut [u32],
    distances: &mut [u32],
) -> Tally
    requires fits { length plate.now ≡ library.now.records.shape.wells }
    requires codes_room { library.now.records.shape.count ≤ length codes.old }
    requires distances_room { library.now.records.shape.count ≤ length distances.old }
    ensures { Lists library.now.records.image.now plate.now radius codes.old distances.old codes.new distances.new result }
{
    let mut steps = [Step::default(); 1024];
    let walk = Walk::of(*library, &mut steps);
    sorted(&walk, plate, radius, codes, distances)
}
