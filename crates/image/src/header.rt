// The header of an image that is long enough to have one.
ghost use Rattle.std.specs.Prelude.{◌≡◌, ℕ, ◌≤◌, ◌<◌, length, get_or};
ghost use Rattle.image.specs.Fields.{edition_of, wells_of, metric_of, count_of, root_of, profiles_offset_of, nodes_offset_of};

#[derive(Clone, Copy)]
pub struct Header<'a> {
    pub image: &'a [u8],
    pub ghost long: { 16 ≤ length image.now },
    pub ghost bytes: { (j : ℕ) → get_or image.now j 0 < 256 },
}

impl Header<'_> {
    pub fn edition(&self) -> u16
        ensures { result ≡ edition_of self.now.image.now }
    {
        crate::bytes::u16_at(self.image, 0)
    }

    pub fn wells(&self) -> usize
        ensures { (result ≡ wells_of self.now.image.now) × (result < 256) }
    {
        usize::from(self.image[2])
    }

    // The metric's number.
    pub fn metric(&self) -> u8
        ensures { result ≡ metric_of self.now.image.now }
    {
        self.image[3]
    }

    pub fn count(&self) -> usize
        ensures { (result ≡ count_of self.now.image.now) × (result < 65536) }
    {
        usize::from(crate::bytes::u16_at(self.image, 4))
    }

    // The record number of the root.
    pub fn root(&self) -> usize
        ensures { (result ≡ root_of self.now.image.now) × (result < 65536) }
    {
        usize::from(crate::bytes::u16_at(self.image, 6))
    }

    pub fn profiles_offset(&self) -> usize
        ensures { result ≡ profiles_offset_of self.now.image.now }
    {
        crate::bytes::u32_at(self.image, 8) as usize
    }

    pub fn nodes_offset(&self) -> usize
        ensures { result ≡ nodes_offset_of self.now.image.now }
    {
        crate::bytes::u32_at(self.image, 12) as usize
    }
}
