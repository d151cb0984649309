// An image past rule 8: its header is as it should be, and there is room for the records that it tells of.
ghost use Rattle.std.specs.Prelude.{◌≡◌, ◌≤◌, ◌<◌};
ghost use Rattle.profile.specs.Metric.{metric_number};
ghost use Rattle.image.specs.Fields.{wells_of, metric_of, count_of, root_of, distance_at};

use image::records::Records;
use profile::distance::distance;

#[derive(Clone, Copy)]
pub struct Headed<'a> {
    pub records: Records<'a>,
    pub root: usize,
    ghost is_metric: { metric_number records.shape.metric ≡ metric_of records.image.now },
    ghost is_wells: { records.shape.wells ≡ wells_of records.image.now },
    ghost is_count: { records.shape.count ≡ count_of records.image.now },
    ghost is_root: { root ≡ root_of records.image.now },
    ghost root_in: { root < records.shape.count },
}

impl<'a> Headed<'a> {
    // The distance of two records. `bound` is said wherever a distance is handed on, as callers add and compare it as a number.
    #[inline(always)]
    #[tactic(auto, unfolding(image::specs::Fields::profile_at, image::specs::Fields::distance_at), using(profile::proofs::Reading::wells_length))]
    pub fn apart(&self, i: usize, j: usize) -> u32
        requires i_in { i < self.now.records.shape.count }
        requires j_in { j < self.now.records.shape.count }
        ensures exact { result ≡ distance_at self.now.records.image.now i j }
        ensures bound { result ≤ 1048560 }
    {
        let shape = self.records.shape;
        distance(
            shape.metric,
            self.records.profile(i),
            self.records.profile(j),
            shape.wells,
        )
    }
}
