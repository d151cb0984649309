// A strain that a library is to have.

#[derive(Clone, Copy)]
pub struct NewStrain<'a> {
    pub code: u32,
    pub profile: &'a [i16],
}
