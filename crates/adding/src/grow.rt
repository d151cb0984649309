// One strain more in a library's buffer, which has room for it.
ghost use Rattle.std.specs.Prelude.{◌≡◌, ◌++◌, ◌+◌, ◌*◌, ◌≤◌, ◌<◌, length, take, drop};
ghost use Rattle.image.specs.Fields.{count_of};
ghost use Rattle.image.specs.Library.{Library};
ghost use Rattle.adding.specs.ImageWith.{image_with};
ghost use Rattle.adding.specs.Steps.{SeatFor};

use crate::seat::Seat;
use crate::strain::NewStrain;
use image::accepted::Accepted;
use image::shape::Shape;

// The library is the first `stated` bytes of a buffer that is lent to be written, so it comes as a fact and not as an `Accepted`, which borrows. Makes room for a record, writes the header anew, and hangs the strain into the tree.
pub fn grow(buffer: &mut [u8], stated: usize, strain: NewStrain<'_>, seat: Seat)
    requires library { Library (take stated buffer.old) }
    requires seat_for { SeatFor (take stated buffer.old) strain.profile.now seat }
    requires room { stated + (8 + 2 * length strain.profile.now) ≤ length buffer.old }
    requires not_full { count_of (take stated buffer.old) < 1024 }
    ensures exact { buffer.new ≡ image_with buffer.old stated strain.entry.code strain.entry.profile.now ++ drop (length (image_with buffer.old stated strain.entry.code strain.entry.profile.now)) buffer.old }
    ensures long { length (image_with buffer.old stated strain.entry.code strain.entry.profile.now) ≡ stated + (8 + 2 * length strain.entry.profile.now) }
{
    let library = Accepted::of(&buffer[..stated]);
    let root = library.root;
    let old = library.records.shape;
    let shape = Shape {
        metric: old.metric,
        wells: old.wells,
        count: old.count + 1,
    };
    writer::widen::widen(buffer, 16 + 8 * old.count, stated);
    writer::header::put(buffer, shape, root);
    crate::hang::hang(buffer, shape, old.count, strain, seat);
}
