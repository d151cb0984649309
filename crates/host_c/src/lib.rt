// The C interface, the only door for programs in C and Rust; include/kwalgimo.h declares it. Each export is the door of that name in `host`, under
// the same clauses: a static library is no library for other crates, whose theorems speak of `host`.
#![tactic(auto)]

ghost use Rattle.std.specs.Prelude.{◌≡◌};
ghost use Rattle.checker.specs.Check.{check_of};
ghost use Rattle.build.specs.Calls.{start_of, add_of, file_of};
ghost use Rattle.search.specs.Calls.{sitting_of, within_of};
ghost use Rattle.text.specs.Calls.{list_of};
ghost use Rattle.short.specs.Short.{ShortGives};
ghost use Rattle.host.specs.Word.{first, long, counts, verdict_word};
ghost use Rattle.host.specs.Doors.{Wrote, Searched};

// The check of a library.
#[unsafe(no_mangle)]
pub extern "C" fn kw_check(image: &[u8]) -> u64
    ensures { result ≡ verdict_word (check_of image.now) }
{
    host::kw_check(image)
}

// A library started with one strain, in the front of the buffer.
#[unsafe(no_mangle)]
pub extern "C" fn kw_start(
    wells: u32,
    metric: u32,
    code: u32,
    profile: &[i16],
    buffer: &mut [u8],
) -> u64
    ensures { Wrote first (start_of wells metric code profile.now buffer.old) result buffer.new }
{
    host::kw_start(wells, metric, code, profile, buffer)
}

// A strain added to the library that is the first `stated` bytes of the buffer.
#[unsafe(no_mangle)]
pub extern "C" fn kw_add(buffer: &mut [u8], stated: usize, code: u32, profile: &[i16]) -> u64
    ensures { Wrote first (add_of buffer.old stated code profile.now) result buffer.new }
{
    host::kw_add(buffer, stated, code, profile)
}

// A library's filing form, in the front of the buffer.
#[unsafe(no_mangle)]
pub extern "C" fn kw_file(image: &[u8], buffer: &mut [u8]) -> u64
    ensures { Wrote first (file_of image.now buffer.old) result buffer.new }
{
    host::kw_file(image, buffer)
}

// A library's listing, in the front of the buffer.
#[unsafe(no_mangle)]
pub extern "C" fn kw_list(image: &[u8], buffer: &mut [u8]) -> u64
    ensures { Wrote long (list_of image.now buffer.old) result buffer.new }
{
    host::kw_list(image, buffer)
}

// The nearest strains of each plate of a sitting.
#[unsafe(no_mangle)]
pub extern "C" fn kw_sitting(
    image: &[u8],
    plates: &[i16],
    neighbours: u32,
    codes: &mut [u32],
    distances: &mut [u32],
) -> u64
    ensures { Searched first (sitting_of image.now plates.now neighbours codes.old distances.old) result codes.new distances.new }
{
    host::kw_sitting(image, plates, neighbours, codes, distances)
}

// The strains within a radius of a plate.
#[unsafe(no_mangle)]
pub extern "C" fn kw_within(
    image: &[u8],
    plate: &[i16],
    radius: u32,
    codes: &mut [u32],
    distances: &mut [u32],
) -> u64
    ensures { Searched counts (within_of image.now plate.now radius codes.old distances.old) result codes.new distances.new }
{
    host::kw_within(image, plate, radius, codes, distances)
}

// The short call: the five nearest strains of one plate that comes in bytes. The result is 0 or the refusal number.
#[unsafe(no_mangle)]
pub extern "C" fn kw_short(image: &[u8], plate: &[u8], out: &mut [u8]) -> u32
    ensures { ShortGives image.now plate.now out.old result out.new }
{
    host::kw_short(image, plate, out)
}
