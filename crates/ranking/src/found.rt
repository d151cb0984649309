// A strain's distance and code in one number, which orders by distance and then code. It is a u64 and no type of its own: `sort` takes it
// as it takes any numbers, and one compare tells which of two goes first.
ghost use Rattle.std.specs.Prelude.{◌≡◌, ◌+◌, ◌*◌};
ghost use Rattle.ranking.specs.Found.{distance_of, code_of};

// As many codes as 32 bits hold.
const CODES: u64 = 1 << 32;

pub fn rank(distance: u32, code: u32) -> u64
    ensures { result ≡ distance * 4294967296 + code }
{
    u64::from(distance) * CODES + u64::from(code)
}

pub fn distance_of(rank: u64) -> u32
    ensures { result ≡ distance_of rank }
{
    (rank / CODES) as u32
}

pub fn code_of(rank: u64) -> u32
    ensures { result ≡ code_of rank }
{
    (rank % CODES) as u32
}
