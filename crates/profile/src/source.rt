// What a profile can be read from: a list of wells, or the bytes of an image.
ghost use Rattle.std.specs.Prelude.{◌≡◌, ◌+◌, ◌*◌, ◌<◌, ◌≤◌, ℤ, pos, List, length, get_or};
ghost use Rattle.profile.specs.Bytes.{wells_at};

// A profile, well by well.
pub trait Profile {
    ghost wells: { Self → List ℤ };

    fn well(&self, i: usize) -> i16
        requires { i < length (wells self.now) }
        ensures { result ≡ get_or (wells self.now) i (pos 0) };
}

impl Profile for &[i16] {
    ghost wells = { λ s. s.now };

    #[inline(always)]
    fn well(&self, i: usize) -> i16 {
        self[i]
    }
}

// A profile of so many wells that stands in an image's bytes.
#[derive(Clone, Copy)]
pub struct Stored<'a> {
    pub image: &'a [u8],
    pub at: usize,
    pub wells: usize,
    pub ghost inside: { at + 2 * wells ≤ length image.now },
}

impl<'a> Profile for Stored<'a> {
    ghost wells = { λ s. wells_at s.image.now s.at s.wells };

    #[inline(always)]
    #[tactic(auto, using(crate::proofs::Reading::wells_length, crate::proofs::Reading::wells_well))]
    fn well(&self, i: usize) -> i16 {
        crate::well::read(self.image, self.at + 2 * i)
    }
}
