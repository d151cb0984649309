// The doors of the C interface: each function hands its call on, and puts the answer into one word, so that a refusal can tell its place and
// still change nothing that was lent. host_c exports them by their names here.
#![tactic(auto)]

ghost use Rattle.std.specs.Prelude.{◌≡◌};
ghost use Rattle.checker.specs.Check.{check_of};
ghost use Rattle.build.specs.Calls.{start_of, add_of, file_of};
ghost use Rattle.search.specs.Calls.{sitting_of, within_of};
ghost use Rattle.text.specs.Calls.{list_of};
ghost use Rattle.short.specs.Short.{ShortGives};
ghost use Rattle.host.specs.Word.{first, long, counts, verdict_word};
ghost use Rattle.host.specs.Doors.{Wrote, Searched};

mod word; // word.rt: the answer word

// The check of a library.
pub fn kw_check(image: &[u8]) -> u64
    ensures { result ≡ verdict_word (check_of image.now) }
{
    word::answer(checker::check(image).map(|()| 0))
}

// A library started with one strain, in the front of the buffer.
pub fn kw_start(wells: u32, metric: u32, code: u32, profile: &[i16], buffer: &mut [u8]) -> u64
    ensures { Wrote first (start_of wells metric code profile.now buffer.old) result buffer.new }
{
    word::answer(build::start(wells, metric, code, profile, buffer).map(word::first))
}

// A strain added to the library that is the first `stated` bytes of the buffer.
pub fn kw_add(buffer: &mut [u8], stated: usize, code: u32, profile: &[i16]) -> u64
    ensures { Wrote first (add_of buffer.old stated code profile.now) result buffer.new }
{
    word::answer(build::add(buffer, stated, code, profile).map(word::first))
}

// A library's filing form, in the front of the buffer.
pub fn kw_file(image: &[u8], buffer: &mut [u8]) -> u64
    ensures { Wrote first (file_of image.now buffer.old) result buffer.new }
{
    word::answer(build::file(image, buffer).map(word::first))
}

// A library's listing, in the front of the buffer.
pub fn kw_list(image: &[u8], buffer: &mut [u8]) -> u64
    ensures { Wrote long (list_of image.now buffer.old) result buffer.new }
{
    word::answer(text::list(image, buffer).map(word::long))
}

// The nearest strains of each plate of a sitting.
pub fn kw_sitting(
    image: &[u8],
    plates: &[i16],
    neighbours: u32,
    codes: &mut [u32],
    distances: &mut [u32],
) -> u64
    ensures { Searched first (sitting_of image.now plates.now neighbours codes.old distances.old) result codes.new distances.new }
{
    word::answer(search::sitting(image, plates, neighbours, codes, distances).map(word::first))
}

// The strains within a radius of a plate.
pub fn kw_within(
    image: &[u8],
    plate: &[i16],
    radius: u32,
    codes: &mut [u32],
    distances: &mut [u32],
) -> u64
    ensures { Searched counts (within_of image.now plate.now radius codes.old distances.old) result codes.new distances.new }
{
    word::answer(search::within(image, plate, radius, codes, distances).map(word::counts))
}

// The short call: the five nearest strains of one plate that comes in bytes. The result is 0 or the refusal number.
pub fn kw_short(image: &[u8], plate: &[u8], out: &mut [u8]) -> u32
    ensures { ShortGives image.now plate.now out.old result out.new }
{
    match short::short(image, plate, out) {
        Ok(_) => 0,
        Err(refusal) => u32::from(refusal.number()),
    }
}
