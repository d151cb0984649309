// A record's node and its profile, written.
ghost use Rattle.std.specs.Prelude.{◌≡◌, ◌+◌, ◌*◌, ◌≤◌, ◌<◌, pos, negsuc, length, set, ◌≤ℤ◌};
ghost use Rattle.std.proofs.lemmas.List.Edits.{sets};
ghost use Rattle.profile.specs.Distance.{Wells};
ghost use Rattle.image.specs.Fields.{profile_start, size_of};
ghost use Rattle.content.specs.Content.{kept_of};
ghost use Rattle.content.specs.Bytes.{level_byte_of, node_bytes, profile_bytes};

use crate::number::{put_u16, put_u32};
use image::shape::Shape;

// The level of record i, of an image that is lent to be written: so it asks for the record's bytes in a clause.
pub fn put_level(image: &mut [u8], i: usize, level: i32)
    requires { (24 + 8 * i ≤ length image.old) × (negsuc 0 ≤ℤ level) × (level ≤ℤ pos 20) }
    ensures { image.new ≡ set image.old (22 + 8 * i) (level_byte_of level) }
{
    image[22 + 8 * i] = (level + 1) as u8;
}

// A profile, from `at` on.
fn put_profile(image: &mut [u8], at: usize, profile: &[i16])
    requires { at + 2 * length profile.now ≤ length image.old }
    ensures exact { image.new ≡ sets image.old at (profile_bytes profile.now) }
    ensures values { Wells profile.now }
{
    for (i, well) in profile.iter().enumerate() {
        put_u16(image, at + 2 * i, well.cast_unsigned());
    }
}

// A record, as it is to be written.
#[derive(Clone, Copy)]
pub struct Record<'a> {
    pub code: u32,
    pub profile: &'a [i16],
    pub parent: usize,
    pub level: i32,
    pub ghost parent_fits: { parent < 65536 },
    pub ghost least: { negsuc 0 ≤ℤ level },
    pub ghost most: { level ≤ℤ pos 20 },
}

// Record i of a library that is laid out for as many as the shape says.
#[tactic(auto, unfolding(content::specs::Bytes::node_bytes))]
pub fn put(image: &mut [u8], shape: Shape, i: usize, fields: Record<'_>)
    requires inside { i < shape.count }
    requires fits { length fields.profile.now ≡ shape.wells }
    requires room { size_of shape.wells shape.count ≤ length image.old }
    ensures exact { image.new ≡ sets (sets image.old (16 + 8 * i) (node_bytes (kept_of fields.entry.code fields.entry.profile.now fields.entry.parent fields.entry.level))) (profile_start shape.count shape.wells i) (profile_bytes fields.entry.profile.now) }
    ensures values { Wells fields.entry.profile.now }
{
    put_u32(image, 16 + 8 * i, fields.code);
    put_u16(image, 20 + 8 * i, fields.parent as u16);
    put_level(image, i, fields.level);
    image[23 + 8 * i] = 0;
    put_profile(image, shape.profile_start(i), fields.profile);
}
