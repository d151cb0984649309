// The shape of a library: so many strains of so many wells, under a metric.
ghost use Rattle.std.specs.Prelude.{◌≡◌, ◌+◌, ◌*◌, ◌≤◌, ◌<◌};
ghost use Rattle.image.specs.Fields.{profile_start, size_of};

use profile::metric::Metric;

#[derive(Clone, Copy)]
pub struct Shape {
    pub metric: Metric,
    pub wells: usize,
    pub count: usize,
    pub ghost wells_high: { wells ≤ 16 },
    pub ghost count_high: { count ≤ 1024 },
}

impl Shape {
    // How many bytes such a library takes.
    pub fn size(&self) -> usize
        ensures { result ≡ size_of self.now.wells self.now.count }
    {
        16 + 8 * self.count + 2 * (self.wells * self.count)
    }

    // The first byte of record i's profile.
    pub fn profile_start(&self, i: usize) -> usize
        requires { i < self.now.count }
        ensures exact { result ≡ profile_start self.now.count self.now.wells i }
        ensures inside { result + 2 * self.now.wells ≤ size_of self.now.wells self.now.count }
    {
        16 + 8 * self.count + 2 * (self.wells * i)
    }
}
