// A profile, read.
ghost use Rattle.std.specs.Prelude.{◌≡◌, ◌++◌, ◌+◌, ◌*◌, ◌≤◌, ◌<◌, length, drop};
ghost use Rattle.profile.specs.Bytes.{wells_at};
ghost use Rattle.image.specs.Fields.{code_at, profile_start};

use image::records::Records;

// Copies so many wells of the profile at `at` out of an image's bytes, into the front of a slice. Their number stays beside the slice: the
// contract speaks of what stands behind them.
pub fn read(image: &[u8], at: usize, wells: usize, profile: &mut [i16])
    requires profile_room { wells ≤ length profile.old }
    requires image_room { at + 2 * wells ≤ length image.now }
    ensures { profile.new ≡ wells_at image.now at wells ++ drop wells profile.old }
{
    let front = &mut profile[..wells];
    for (i, well) in front.iter_mut().enumerate() {
        *well = profile::well::read(image, at + 2 * i);
    }
}

// The strain of record `from`: copies its profile, and gives its code.
pub fn strain(records: &Records<'_>, from: usize, profile: &mut [i16]) -> u32
    requires from_in_bounds { from < records.now.shape.count }
    requires profile_room { records.now.shape.wells ≤ length profile.old }
    ensures code { result ≡ code_at records.now.image.now from }
    ensures profile { profile.new ≡ wells_at records.now.image.now (profile_start records.now.shape.count records.now.shape.wells from) records.now.shape.wells ++ drop records.now.shape.wells profile.old }
{
    let shape = records.shape;
    read(
        records.image,
        shape.profile_start(from),
        shape.wells,
        profile,
    );
    records.code(from)
}
