// The records of a library in ascending order of code.
ghost use Rattle.std.specs.Prelude.{◌≡◌, ◌++◌, ◌%◌, ◌≤◌, ◌<◌, length, drop};
ghost use Rattle.image.specs.Strains.{each};
ghost use Rattle.order.specs.Key.{key_at};
ghost use Rattle.order.specs.Ordered.{Ordered};

use image::accepted::Accepted;
use image::records::Records;

// A record's code and number in one number, so that sorting compares no more than numbers.
fn key(records: &Records<'_>, i: usize) -> u64
    requires { i < records.now.shape.count }
    ensures { result ≡ key_at records.now.image.now i }
{
    u64::from(records.code(i)) * 65536 + i as u64
}

// The number in a key.
pub fn record_of(key: u64) -> usize
    ensures { result ≡ key % 65536 }
{
    (key % 65536) as usize
}

// The keys in file order.
fn put_keys(records: &Records<'_>, keys: &mut [u64])
    requires { records.now.shape.count ≤ length keys.old }
    ensures { keys.new ≡ each (key_at records.now.image.now) 0 records.now.shape.count ++ drop records.now.shape.count keys.old }
{
    let front = &mut keys[..records.shape.count];
    for (i, place) in front.iter_mut().enumerate() {
        *place = key(records, i);
    }
}

// The keys in order: `record_of` of the i-th is the number of the i-th record.
pub fn by_code(library: &Accepted<'_>, keys: &mut [u64])
    requires { library.now.records.shape.count ≤ length keys.old }
    ensures { Ordered library.now.records.image.now keys.old keys.new library.now.records.shape.count }
{
    put_keys(&library.records, keys);
    ranking::sort::sort(keys, library.records.shape.count);
}
