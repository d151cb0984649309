// Rules 2 to 8: the header. Past all rules, what it says is handed on.
ghost use Rattle.std.specs.Prelude.{◌≡◌, IfOk};
ghost use Rattle.profile.specs.Metric.{metric_number};
ghost use Rattle.image.specs.Fields.{wells_of, metric_of, count_of};
ghost use Rattle.image.specs.Verdict.{judge};
ghost use Rattle.image.specs.Answer.{verdict_of};
ghost use Rattle.checker.specs.Check.{header_rules, layout_rules};

use crate::headed::Headed;
use crate::range::outside;
use image::header::Header;
use image::records::Records;
use image::refusal::{Place, Refusal};
use image::shape::Shape;
use profile::metric::Metric;

// Rules 6 to 13.
#[tactic(auto, unfolding(crate::specs::Check::layout_rules), using(image::proofs::Verdicts::verdicts))]
fn layout_rules<'a>(header: Header<'a>, shape: Shape) -> Result<Headed<'a>, Refusal>
    requires is_metric { metric_number shape.metric ≡ metric_of header.image.now }
    requires is_wells { shape.wells ≡ wells_of header.image.now }
    requires is_count { shape.count ≡ count_of header.image.now }
    ensures verdict { verdict_of result ≡ judge (layout_rules header.entry.image.now) }
    ensures same { IfOk result (λ headed. headed.records.image.now ≡ header.entry.image.now) }
{
    if header.profiles_offset() != 16 + 8 * shape.count || header.nodes_offset() != 16 {
        return Err(Refusal::Offsets(Place::None));
    }
    let image = header.image;
    if image.len() != shape.size() {
        return Err(Refusal::Length(Place::None));
    }
    let root = header.root();
    if shape.count <= root {
        return Err(Refusal::RootNumber(Place::None));
    }
    let headed = Headed {
        records: Records { image, shape },
        root,
    };
    headed.record_rules()?;
    Ok(headed)
}

// Rules 2 to 13.
#[tactic(auto, unfolding(crate::specs::Check::header_rules), using(image::proofs::Verdicts::verdicts, crate::proofs::Passed::numbers))]
pub fn rules<'a>(header: Header<'a>) -> Result<Headed<'a>, Refusal>
    ensures verdict { verdict_of result ≡ judge (header_rules header.entry.image.now) }
    ensures same { IfOk result (λ headed. headed.records.image.now ≡ header.entry.image.now) }
{
    if header.edition() != 1 {
        return Err(Refusal::Edition(Place::None));
    }
    let wells = header.wells();
    if outside(1, 16, wells) {
        return Err(Refusal::Wells(Place::None));
    }
    let Ok(metric) = Metric::try_from(header.metric()) else {
        return Err(Refusal::Metric(Place::None));
    };
    let count = header.count();
    if outside(1, 1024, count) {
        return Err(Refusal::Count(Place::None));
    }
    layout_rules(
        header,
        Shape {
            metric,
            wells,
            count,
        },
    )
}
