// Room for one node more: the profiles behind the nodes move up by 8 bytes, in place.
ghost use Rattle.std.specs.Prelude.{◌+◌, ◌≤◌, length};
ghost use Rattle.writer.specs.Moved.{Moved};

// The bytes from `from` to `upto`.
pub fn widen(buffer: &mut [u8], from: usize, upto: usize)
    requires { (from ≤ upto) × (upto + 8 ≤ length buffer.old) }
    ensures { Moved buffer.old buffer.new from upto }
{
    buffer.copy_within(from..upto, from + 8);
}
