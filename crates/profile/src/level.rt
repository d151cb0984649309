// The fitting level of a distance, and the cover limit of a level.
ghost use Rattle.std.specs.Prelude.{◌≡◌, ◌<◌, ◌≤◌, pos, negsuc, ◌≤ℤ◌};
ghost use Rattle.profile.specs.Level.{fitting_level, cover_limit};

// The level e with 2^e < d <= 2^(e+1): the bit length of d - 1, less 1. At d = 1 it is -1.
pub fn fitting_level(d: u32) -> i32
    requires { 0 < d }
    ensures { result ≡ fitting_level d }
{
    31 - u32::leading_zeros(d - 1) as i32
}

// The cover limit of a level from -1 to 20, 2^(level + 1).
pub fn cover_limit(level: i32) -> u32
    requires { (negsuc 0 ≤ℤ level) × (level ≤ℤ pos 20) }
    ensures { (result ≡ cover_limit level) × (result ≤ 2097152) }
{
    1 << (level + 1) as u32
}
