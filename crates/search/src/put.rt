// What was found, written: the codes and distances of a list of ranks.
ghost use Rattle.std.specs.Prelude.{◌≡◌, ◌++◌, map, ◌≤◌, length, drop};
ghost use Rattle.ranking.specs.Found.{distance_of, code_of};

// In the front of two slices.
#[tactic(auto, using(crate::proofs::Puts::put_more))]
pub fn put(ranks: &[u64], codes: &mut [u32], distances: &mut [u32])
    requires { (length ranks.now ≤ length codes.old) × (length ranks.now ≤ length distances.old) }
    ensures codes { codes.new ≡ map code_of ranks.now ++ drop (length ranks.now) codes.old }
    ensures distances { distances.new ≡ map distance_of ranks.now ++ drop (length ranks.now) distances.old }
{
    for (i, rank) in ranks.iter().enumerate() {
        codes[i] = ranking::found::code_of(*rank);
        distances[i] = ranking::found::distance_of(*rank);
    }
}
