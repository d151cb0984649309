// The running list: up to 32 best of all that was offered, by distance and then code. It is taken and handed back as each strain is offered, as
// document 01 asks.
ghost use Rattle.std.specs.Prelude.{◌≡◌, false, cond, ◌||◌, [], ltb};
ghost use Rattle.ranking.specs.Sort.{itself};
ghost use Rattle.ranking.specs.First.{offered};
ghost use Rattle.ranking.specs.Found.{distance_of};
ghost use Rattle.ranking.specs.Best.{best_of, enters_in, bound_of, places_of};

use crate::asked::Asked;
use crate::sort::put_in;
use std::marker::Model;

#[derive(Clone, Copy)]
pub struct Best {
    ranks: [u64; 32], // `held` ranks in ascending order, and 0 behind them
    held: usize,
    asked: usize,
}

// What lies further than this is not kept: the distance of the last of those asked for, once they are held.
pub fn bound(held: usize, asked: usize, last: u64) -> u32
    ensures { result ≡ cond (ltb held asked) 4294967295 (distance_of last) }
{
    if held < asked {
        u32::MAX
    } else {
        crate::found::distance_of(last)
    }
}

// Whether a rank enters a list: it is not full, or its last rank is higher.
pub fn enters(held: usize, asked: usize, last: u64, rank: u64) -> bool
    ensures { result ≡ (ltb held asked || ltb rank last) }
{
    (held < asked) | (rank < last)
}

// Clauses see the ranks that are kept, and how many are asked for.
impl Model for Best {
    ghost use Rattle.ranking.specs.Running.{Running};

    ghost Value = { Running };

    ghost use Rattle.ranking.specs.Best.{held_in, fields_of, Holds};

    ghost view = { held_in };

    ghost invariant = { Holds };

    ghost inverse = { fields_of };

    ghost inverse_ok = { λ _ held. held.form };
}

impl Best {
    pub fn none(asked: Asked) -> Best
        ensures { result ≡ best_of asked.many [] }
    {
        Best {
            ranks: [0; 32],
            held: 0,
            asked: asked.many,
        }
    }

    // Whether a rank enters this list. Offering one that does not enter changes nothing.
    pub fn enters(&self, rank: u64) -> bool
        ensures tells { result ≡ enters_in self.now.asked self.now.kept rank }
        ensures stays { result ≡ false → offered itself self.now.asked rank self.now.kept ≡ self.now.kept }
    {
        enters(self.held, self.asked, self.ranks[self.asked - 1], rank)
    }

    // The bound of this list.
    pub fn bound(&self) -> u32
        ensures { result ≡ bound_of self.now.asked self.now.kept }
    {
        bound(self.held, self.asked, self.ranks[self.asked - 1])
    }

    // Lets a strain's rank in, if the list has room or holds a higher rank, which then goes.
    fn let_in(&mut self, rank: u64)
        ensures { self.new ≡ best_of self.old.asked (offered itself self.old.asked rank self.old.kept) }
    {
        if self.enters(rank) {
            let held = self.asked.min(self.held + 1);
            self.ranks[held - 1] = rank;
            put_in(&mut self.ranks, held - 1);
            self.held = held;
        }
    }

    // The list with a strain's rank offered to it.
    pub fn offer(mut self, rank: u64) -> Best
        ensures { result ≡ best_of self.asked (offered itself self.asked rank self.kept) }
    {
        self.let_in(rank);
        self
    }

    // As many places as were asked for: the ranks, and 0 where there are fewer.
    pub fn places(&self) -> &[u64]
        ensures { result.now ≡ places_of self.now.asked self.now.kept }
    {
        &self.ranks[..self.asked]
    }
}
