// The answer word of each call.
ghost use Rattle.std.specs.Prelude.{◌≡◌, ◌<◌, IfOk, IfErr};
ghost use Rattle.image.specs.Refusals.{number_of, place_of};
ghost use Rattle.host.specs.Word.{first as word_first, second as word_second, long as word_long, place_word, refused_word, counts as counts_of};

use image::refusal::{Place, Refusal};
use search::Tally;

// The parts of the word, each by its definition; one function over a shift and a width would need both named at each use.

// The longest library takes 40976 bytes, so 16 bits hold its length.
pub fn first(n: usize) -> u64
    ensures { (result ≡ word_first n) × (result < 4294967296) }
{
    65536 * (n as u64 % 65536)
}

fn second(n: usize) -> u64
    ensures { (result ≡ word_second n) × (result < 281474976710656) }
{
    4294967296 * (n as u64 % 65536)
}

// A listing can take 147456 bytes, so its length needs the bits of both values.
pub fn long(n: usize) -> u64
    ensures { result ≡ word_long n }
{
    65536 * (n as u64 % 4294967296)
}

fn place(told: Place) -> u64
    ensures { (result ≡ place_word told) × (result < 562949953421312) }
{
    match told {
        Place::None => 0,
        Place::Record(i) => 256 + first(i),
        Place::Pair { earlier, later } => 512 + first(earlier) + second(later),
    }
}

pub fn refusal(told: Refusal) -> u64
    ensures { result ≡ refused_word (number_of told) (place_of told) }
{
    u64::from(told.number()) + place(told.place())
}

// The word of an answer, whose values are told in a word already.
pub fn answer(told: Result<u64, Refusal>) -> u64
    ensures given { IfOk told (λ word. result ≡ word) }
    ensures denied { IfErr told (λ refusal. result ≡ refused_word (number_of refusal) (place_of refusal)) }
{
    told.unwrap_or_else(refusal)
}

// Of a search within a radius: how many strains, and how many profiles were measured.
pub fn counts(tally: Tally) -> u64
    ensures { result ≡ counts_of tally }
{
    first(tally.strains) + second(tally.measured)
}
