// How many strains are asked for.
ghost use Rattle.std.specs.Prelude.{◌≤◌};

#[derive(Clone, Copy)]
pub struct Asked {
    pub many: usize,
    pub ghost some: { 1 ≤ many },
    pub ghost most: { many ≤ 32 },
}
