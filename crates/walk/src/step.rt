// A place of the walk.

#[derive(Clone, Copy, Default)]
pub struct Step {
    pub node: u16, // the record that stands there
    pub behind: u16, // the place behind all that hangs below it
}
