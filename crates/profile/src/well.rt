// One well: read from its bytes, and the difference of two.
ghost use Rattle.std.specs.Prelude.{◌≡◌, ◌+◌, ◌<◌, length};
ghost use Rattle.profile.specs.Distance.{gap};
ghost use Rattle.profile.specs.Bytes.{well_at};

// The absolute difference of two wells. With its sign it takes 17 bits, so it is worked out at 32, as document 01 asks; without, 16 hold it.
#[inline(always)]
pub fn difference(x: i16, y: i16) -> u16
    ensures { result ≡ gap x y }
{
    let a = x as i32;
    let b = y as i32;
    if a < b {
        (b - a) as u16
    } else {
        (a - b) as u16
    }
}

// The well whose two bytes stand at `at`, the lower first. One line, under the contract that `Stored` and `order` rest on.
#[tactic(auto, using(crate::proofs::Reading::two_bytes), unfolding(crate::specs::Bytes::well_at))]
pub fn read(image: &[u8], at: usize) -> i16
    requires { at + 1 < length image.now }
    ensures { result ≡ well_at image.now at }
{
    i16::from_le_bytes([image[at], image[at + 1]])
}
