// The records of an image that has room for as many as its shape says. Record i takes 8 bytes from 16 + 8 * i on.
ghost use Rattle.std.specs.Prelude.{◌≡◌, ℕ, ◌≤◌, ◌<◌, length, get_or};
ghost use Rattle.image.specs.Fields.{code_at, parent_at, level_byte_at, level_at, spare_at, profile_start, size_of};

use crate::shape::Shape;
use profile::source::Stored;

#[derive(Clone, Copy)]
pub struct Records<'a> {
    pub image: &'a [u8],
    pub shape: Shape,
    pub ghost room: { size_of shape.wells shape.count ≤ length image.now },
    pub ghost bytes: { (j : ℕ) → get_or image.now j 0 < 256 },
}

impl<'a> Records<'a> {
    pub fn code(&self, i: usize) -> u32
        requires { i < self.now.shape.count }
        ensures { result ≡ code_at self.now.image.now i }
    {
        crate::bytes::u32_at(self.image, 16 + 8 * i)
    }

    // The parent's record number.
    pub fn parent(&self, i: usize) -> usize
        requires { i < self.now.shape.count }
        ensures exact { result ≡ parent_at self.now.image.now i }
        ensures high { result < 65536 }
    {
        usize::from(crate::bytes::u16_at(self.image, 20 + 8 * i))
    }

    pub fn level_byte(&self, i: usize) -> u8
        requires { i < self.now.shape.count }
        ensures { result ≡ level_byte_at self.now.image.now i }
    {
        self.image[22 + 8 * i]
    }

    pub fn spare(&self, i: usize) -> u8
        requires { i < self.now.shape.count }
        ensures { result ≡ spare_at self.now.image.now i }
    {
        self.image[23 + 8 * i]
    }

    pub fn level(&self, i: usize) -> i32
        requires { i < self.now.shape.count }
        ensures { result ≡ level_at self.now.image.now i }
    {
        crate::node::level(self.image, i)
    }

    pub fn profile(&self, i: usize) -> Stored<'a>
        requires { i < self.now.shape.count }
        ensures image { result.image.now ≡ self.now.image.now }
        ensures at { result.at ≡ profile_start self.now.shape.count self.now.shape.wells i }
        ensures wells { result.wells ≡ self.now.shape.wells }
    {
        Stored {
            image: self.image,
            at: self.shape.profile_start(i),
            wells: self.shape.wells,
        }
    }
}
