// The header, written.
ghost use Rattle.std.specs.Prelude.{◌≡◌, ◌≤◌, ◌<◌, length};
ghost use Rattle.std.proofs.lemmas.List.Edits.{sets};
ghost use Rattle.profile.specs.Metric.{metric_number};
ghost use Rattle.content.specs.Bytes.{header_bytes};

use crate::number::{put_u16, put_u32};
use image::shape::Shape;

#[tactic(auto, unfolding(content::specs::Bytes::header_bytes))]
pub fn put(image: &mut [u8], shape: Shape, root: usize)
    requires root { root < 65536 }
    requires room { 16 ≤ length image.old }
    ensures { image.new ≡ sets image.old 0 (header_bytes shape.wells (metric_number shape.metric) shape.count root) }
{
    put_u16(image, 0, 1);
    image[2] = shape.wells as u8;
    image[3] = shape.metric.number();
    put_u16(image, 4, shape.count as u16);
    put_u16(image, 6, root as u16);
    put_u32(image, 8, 16 + 8 * shape.count as u32);
    put_u32(image, 12, 16);
}
