// A library begun: its header, and its root at level 0.
ghost use Rattle.std.specs.Prelude.{◌≡◌, ◌≤◌, length};
ghost use Rattle.profile.specs.Metric.{metric_number};
ghost use Rattle.image.specs.Fields.{size_of};
ghost use Rattle.image.specs.Strains.{strain_of};
ghost use Rattle.adding.specs.Steps.{Begun};

use crate::strain::NewStrain;
use image::shape::Shape;
use writer::record::Record;

// Laid out for as many strains as the shape says.
pub fn begin(buffer: &mut [u8], shape: Shape, strain: NewStrain<'_>)
    requires some { 1 ≤ shape.count }
    requires fits { length strain.profile.now ≡ shape.wells }
    requires room { size_of shape.wells shape.count ≤ length buffer.old }
    ensures { Begun buffer.old buffer.new shape.wells (metric_number shape.metric) shape.count (strain_of strain.entry.code strain.entry.profile.now) }
{
    writer::header::put(buffer, shape, 0);
    let root = Record {
        code: strain.code,
        profile: strain.profile,
        parent: 0,
        level: 0,
    };
    writer::record::put(buffer, shape, 0, root);
}
