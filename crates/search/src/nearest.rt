// The nearest strains of one plate: down the tree that was laid out, with a running list.
ghost use Rattle.std.specs.Prelude.{◌≡◌, map, length};
ghost use Rattle.ranking.specs.Found.{rank};
ghost use Rattle.ranking.specs.Best.{best_of};
ghost use Rattle.search.specs.Ranked.{nearest as nearest_of};

use ranking::asked::Asked;
use ranking::best::Best;
use walk::laid::Walk;

pub fn nearest<'a>(walk: &Walk<'a>, plate: &'a [i16], asked: Asked) -> Best
    requires { length plate.now ≡ walk.now.library.records.shape.wells }
    ensures { result ≡ best_of asked.many (map rank (nearest_of walk.now.library.records.image.now asked.many plate.now)) }
{
    let mut best = Best::none(asked);
    let mut passage = walk.passage(plate);
    while let Some(met) = passage.next_within(best.bound()) {
        let code = walk.library.records.code(met.node);
        let rank = ranking::found::rank(met.distance, code);
        // A list is copied when a rank is offered to it, so only what enters is.
        if best.enters(rank) {
            best = best.offer(rank);
        }
    }
    best
}
