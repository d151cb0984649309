// Little-endian numbers, written. `to_le_bytes` is a method of each width's type, so that one function for both would be longer.
ghost use Rattle.std.specs.Prelude.{◌≡◌, ◌+◌, ◌≤◌, length};
ghost use Rattle.std.proofs.lemmas.List.Edits.{sets};
ghost use Rattle.content.specs.Bytes.{bytes16, bytes32};

// A number in two bytes, the lower first.
pub fn put_u16(image: &mut [u8], at: usize, n: u16)
    requires { at + 2 ≤ length image.old }
    ensures { image.new ≡ sets image.old at (bytes16 n) }
{
    image[at..at + 2].copy_from_slice(&n.to_le_bytes());
}

// A number in four.
pub fn put_u32(image: &mut [u8], at: usize, n: u32)
    requires { at + 4 ≤ length image.old }
    ensures { image.new ≡ sets image.old at (bytes32 n) }
{
    image[at..at + 4].copy_from_slice(&n.to_le_bytes());
}
