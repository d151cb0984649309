// The level of a record, of an image that is lent to be written too. It asks for the record's own bytes only, as it did when docs/DECISIONS.md named
// it; `Records` has the other fields.
ghost use Rattle.std.specs.Prelude.{◌≡◌, ◌+◌, ◌*◌, ◌≤◌, length};
ghost use Rattle.image.specs.Fields.{level_at};

// The level byte less 1.
pub fn level(image: &[u8], i: usize) -> i32
    requires { 24 + 8 * i ≤ length image.now }
    ensures { result ≡ level_at image.now i }
{
    i32::from(image[22 + 8 * i]) - 1
}
