// Little-endian numbers in a library's bytes. `from_le_bytes` is a method of each width's type, so that one function for both would be longer.
ghost use Rattle.std.specs.Prelude.{◌≡◌, ◌+◌, ◌<◌, length};
ghost use Rattle.image.specs.Numbers.{u16_at, u32_at};

pub fn u16_at(image: &[u8], at: usize) -> u16
    requires { at + 1 < length image.now }
    ensures { result ≡ u16_at image.now at }
{
    u16::from_le_bytes([image[at], image[at + 1]])
}

pub fn u32_at(image: &[u8], at: usize) -> u32
    requires { at + 3 < length image.now }
    ensures { result ≡ u32_at image.now at }
{
    u32::from_le_bytes([image[at], image[at + 1], image[at + 2], image[at + 3]])
}
