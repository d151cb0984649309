// Rules 17 to 19: may a library take this strain, and where?
ghost use Rattle.std.specs.Prelude.{◌≡◌};
ghost use Rattle.image.specs.Fields.{count_of};
ghost use Rattle.image.specs.Verdict.{at_first};
ghost use Rattle.build.specs.Rules.{code_taken};
ghost use Rattle.build.specs.Steps.{Offered};

use adding::seat::Seat;
use adding::strain::NewStrain;
use adding::takers::Takers;
use image::accepted::Accepted;
use image::refusal::{Place, Refusal};

// The first record with this code. The chain is that of the check's rules on records, and stays for their reason.
fn first_taken(library: &Accepted<'_>, code: u32) -> Option<Place>
    ensures { result ≡ at_first (count_of library.now.records.image.now) (code_taken library.now.records.image.now code) }
{
    let records = library.records;
    (0..records.shape.count)
        .find(|i| records.code(*i) == code)
        .map(Place::Record)
}

// A held profile lies at distance 0, so the nearest record tells whether there is one.
pub fn consider(library: &Accepted<'_>, strain: NewStrain<'_>) -> Result<Seat, Refusal>
    ensures { Offered library.now.records.image.now strain.entry.code strain.entry.profile.now result }
{
    if strain.profile.len() != library.records.shape.wells {
        return Err(Refusal::NewProfile(Place::None));
    }
    if strain.code == 0 {
        return Err(Refusal::NewCode(Place::None));
    }
    if let Some(place) = first_taken(library, strain.code) {
        return Err(Refusal::NewCode(place));
    }
    let seat = Takers::of(library, strain.profile).nearest();
    if seat.distance == 0 {
        return Err(Refusal::Held(Place::Record(seat.parent)));
    }
    Ok(seat)
}
