// An accepted library, with its header read.
ghost use Rattle.std.specs.Prelude.{◌≡◌};
ghost use Rattle.profile.specs.Metric.{metric_number};
ghost use Rattle.image.specs.Fields.{wells_of, metric_of, count_of, root_of};
ghost use Rattle.image.specs.Library.{Library};
ghost use Rattle.image.specs.Once.{library_once};

use crate::header::Header;
use crate::records::Records;
use crate::shape::Shape;
use profile::metric::Metric;

#[derive(Clone, Copy)]
pub struct Accepted<'a> {
    pub records: Records<'a>,
    pub root: usize,
    pub ghost library: { Library records.image.now } by { library_once records.image.now },
    pub ghost is_metric: { metric_number records.shape.metric ≡ metric_of records.image.now },
    pub ghost is_wells: { records.shape.wells ≡ wells_of records.image.now },
    pub ghost is_count: { records.shape.count ≡ count_of records.image.now },
    pub ghost is_root: { root ≡ root_of records.image.now },
}

impl<'a> Accepted<'a> {
    pub fn of(image: &'a [u8]) -> Accepted<'a>
        requires { Library image.now }
        ensures { result.records.image.now ≡ image.now }
    {
        let header = Header { image };
        Accepted {
            records: Records {
                image,
                shape: Shape {
                    metric: Metric::try_from(header.metric()).unwrap(),
                    wells: header.wells(),
                    count: header.count(),
                },
            },
            root: header.root(),
        }
    }
}
