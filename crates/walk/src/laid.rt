// An accepted library with its tree laid out flat, once for all plates, in time linear in the number of records.
ghost use Rattle.std.specs.Prelude.{◌≡◌, length};
ghost use Rattle.walk.specs.LaidOut.{LaidOut};

use crate::passage::Passage;
use crate::step::Step;
use image::accepted::Accepted;
use image::records::Records;
use image::shape::Shape;
use profile::metric::Metric;

#[derive(Clone, Copy)]
pub struct Walk<'a> {
    pub library: Accepted<'a>,
    pub steps: &'a [Step], // in the order of the walk
    pub ghost each: { length steps.now ≡ library.records.shape.count },
    pub ghost laid_out: { LaidOut library.records.image.now steps.now },
}

impl<'a> Walk<'a> {
    // The steps stand in the caller's array.
    pub fn of(library: Accepted<'a>, steps: &'a mut [Step; 1024]) -> Walk<'a>
        ensures { result.library ≡ library.entry }
    {
        crate::lay::lay_out(&library, steps);
        Walk {
            library,
            steps: &steps[..library.records.shape.count],
        }
    }

    // The same walk, with the library's metric and width as they stand in the caller's code.
    #[inline(always)]
    pub fn written(&self, metric: Metric, wells: usize) -> Walk<'a>
        requires metric { metric ≡ self.now.library.records.shape.metric }
        requires wells { wells ≡ self.now.library.records.shape.wells }
        ensures image { result.library.records.image ≡ self.now.library.records.image }
        ensures count { result.library.records.shape.count ≡ self.now.library.records.shape.count }
    {
        let Walk { library, steps } = *self;
        let Records { image, shape } = library.records;
        let shape = Shape {
            metric,
            wells,
            count: shape.count,
        };
        Walk {
            library: Accepted {
                records: Records { image, shape },
                root: library.root,
            },
            steps,
        }
    }

    // From the first place on, for a plate of as many wells as the strains have. The searches ask for that too: they have no passage before.
    pub fn passage(&self, plate: &'a [i16]) -> Passage<'a>
        requires { length plate.now ≡ self.now.library.records.shape.wells }
        ensures walk { result.walk ≡ self.now }
        ensures plate { result.plate.now ≡ plate.now }
        ensures start { (result.place ≡ 0) × (result.measured ≡ 0) }
    {
        Passage {
            walk: *self,
            plate,
            place: 0,
            measured: 0,
        }
    }
}
