// A whole listing, written.
ghost use Rattle.std.specs.Prelude.{◌≤◌, length};
ghost use Rattle.text.specs.Written.{Written};
ghost use Rattle.text.specs.Listing.{listing};

use crate::cursor::Cursor;
use image::accepted::Accepted;

// At the front of a room that every listing fits into.
#[tactic(auto, using(crate::proofs::Writes::writing))]
pub fn put(room: &mut [u8], library: &Accepted<'_>) -> usize
    requires { 147456 ≤ length room.old }
    ensures { Written room.old 0 (listing library.now.records.image.now) result room.new }
{
    let mut out = Cursor { room, end: 0 };
    crate::line::put_header(&mut out, library);
    for i in 0..library.records.shape.count {
        crate::line::put_record(&mut out, library, i);
    }
    out.end
}
