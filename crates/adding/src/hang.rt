// A strain hung into the tree: its record written behind the others, and the root raised above it.
ghost use Rattle.std.specs.Prelude.{◌≡◌, ◌<◌, length};
ghost use Rattle.profile.specs.Metric.{metric_number};
ghost use Rattle.image.specs.Fields.{size_of};
ghost use Rattle.image.specs.Strains.{strain_of};
ghost use Rattle.content.specs.Content.{first_of, nth};
ghost use Rattle.content.specs.Adding.{parent_for};
ghost use Rattle.adding.specs.Filled.{Filled};
ghost use Rattle.adding.specs.Steps.{Seated, Hung};

use crate::seat::Seat;
use crate::strain::NewStrain;
use image::header::Header;
use image::shape::Shape;
use writer::record::Record;

// The strain as the next record of a library that is laid out for more, at the seat that was found for it.
pub fn hang(image: &mut [u8], shape: Shape, filled: usize, strain: NewStrain<'_>, seat: Seat)
    requires filled { Filled image.old (metric_number shape.metric) shape.wells shape.count filled }
    requires inside { filled < shape.count }
    requires fits { length strain.profile.now ≡ shape.wells }
    requires away { 0 < seat.distance }
    requires seated { Seated (metric_number shape.metric) strain.profile.now (nth (first_of image.old filled).records) seat (parent_for (first_of image.old filled) strain.profile.now) }
    ensures { Hung image.old image.new (size_of shape.wells shape.count) filled (strain_of strain.entry.code strain.entry.profile.now) }
{
    let root = Header { image }.root();
    let level = profile::level::fitting_level(seat.distance);
    let top = image::node::level(image, root).max(level + 1);
    let fields = Record {
        code: strain.code,
        profile: strain.profile,
        parent: seat.parent,
        level,
    };
    writer::record::put(image, shape, filled, fields);
    writer::record::put_level(image, root, top);
}
