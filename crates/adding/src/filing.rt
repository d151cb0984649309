// A library's strains filed into another buffer, in ascending order of code. The buffer is laid out for all of them from the start.
ghost use Rattle.std.specs.Prelude.{◌≡◌, ◌++◌, ◌+◌, ◌≤◌, ◌<◌, length, get_or, drop};
ghost use Rattle.image.specs.Strains.{strain_of, strain_at};
ghost use Rattle.content.specs.Filing.{filing_form};
ghost use Rattle.order.specs.Key.{order_of};
ghost use Rattle.adding.specs.Steps.{Filing};

use crate::strain::NewStrain;
use crate::takers::Takers;
use image::accepted::Accepted;
use image::records::Records;

// The strain of record i. Its profile is copied out, as a new strain's is a list of wells wherever it comes from.
fn copy_out<'p>(library: &Accepted<'_>, i: usize, profile: &'p mut [i16; 16]) -> NewStrain<'p>
    requires { i < library.now.records.shape.count }
    ensures fits { length result.profile.now ≡ library.now.records.shape.wells }
    ensures exact { strain_of result.code result.profile.now ≡ strain_at library.now.records.image.now i }
{
    let profile = &mut profile[..library.records.shape.wells];
    let code = order::wells::strain(&library.records, i, profile);
    NewStrain { code, profile }
}

// The strain of record `from` as the root.
#[tactic(auto, using(crate::proofs::ByCode::ordered_in, crate::proofs::Files::filing_some, crate::proofs::Files::filing_first))]
fn lay_first(library: &Accepted<'_>, buffer: &mut [u8], from: usize)
    requires room { length library.now.records.image.now ≤ length buffer.old }
    requires first { from ≡ get_or (order_of library.now.records.image.now) 0 0 }
    ensures { Filing library.now.records.image.now buffer.old buffer.new 1 }
{
    let mut profile = [0i16; 16];
    let strain = copy_out(library, from, &mut profile);
    crate::begin::begin(buffer, library.records.shape, strain);
}

// The strain of record `from` behind the first i.
fn lay_next(library: &Accepted<'_>, buffer: &mut [u8], i: usize, from: usize)
    requires filing { Filing library.now.records.image.now buffer.old buffer.old i }
    requires behind { 0 < i }
    requires inside { i < library.now.records.shape.count }
    requires next { from ≡ get_or (order_of library.now.records.image.now) i 0 }
    ensures { Filing library.now.records.image.now buffer.old buffer.new (i + 1) }
{
    let shape = library.records.shape;
    let mut profile = [0i16; 16];
    let strain = copy_out(library, from, &mut profile);
    let takers = Takers {
        records: Records {
            image: buffer,
            shape,
        },
        filled: i,
        profile: strain.profile,
    };
    let seat = takers.nearest();
    crate::hang::hang(buffer, shape, i, strain, seat);
}

// All of them, the lowest code first.
pub fn fill(library: &Accepted<'_>, buffer: &mut [u8])
    requires { length library.now.records.image.now ≤ length buffer.old }
    ensures exact { buffer.new ≡ filing_form library.now.records.image.now ++ drop (length (filing_form library.now.records.image.now)) buffer.old }
    ensures long { length (filing_form library.now.records.image.now) ≡ length library.now.records.image.now }
{
    let count = library.records.shape.count;
    let mut keys = [0u64; 1024];
    let keys = &mut keys[..count];
    order::codes::by_code(library, keys);
    lay_first(library, buffer, order::codes::record_of(keys[0]));
    for i in 1..count {
        lay_next(library, buffer, i, order::codes::record_of(keys[i]));
    }
}
