// An image past rule 9 too: each record's fields are in their ranges.
ghost use Rattle.std.specs.Prelude.{◌≡◌, ◌≤◌, ◌<◌, ℕ};
ghost use Rattle.profile.specs.Level.{cover_limit};
ghost use Rattle.image.specs.Fields.{parent_at, level_at, level_byte_at};

use crate::headed::Headed;

#[derive(Clone, Copy)]
pub struct Noded<'a> {
    pub headed: Headed<'a>,
    ghost parent_in: { (i : ℕ) → i < headed.records.shape.count → parent_at headed.records.image.now i < headed.records.shape.count },
    ghost level_in: { (i : ℕ) → i < headed.records.shape.count → level_byte_at headed.records.image.now i ≤ 21 },
}

impl<'a> Noded<'a> {
    // The parent's record number.
    pub fn parent(&self, i: usize) -> usize
        requires { i < self.now.headed.records.shape.count }
        ensures exact { result ≡ parent_at self.now.headed.records.image.now i }
        ensures inside { result < self.now.headed.records.shape.count }
    {
        self.headed.records.parent(i)
    }

    // The cover limit of a record's level.
    #[inline(always)]
    pub fn cover_limit(&self, i: usize) -> u32
        requires { i < self.now.headed.records.shape.count }
        ensures exact { result ≡ cover_limit (level_at self.now.headed.records.image.now i) }
        ensures high { result ≤ 2097152 }
    {
        profile::level::cover_limit(self.headed.records.level(i))
    }
}
