// The two metrics, and the numbers by which they are known.
ghost use Rattle.profile.specs.Metric.{metric_number, Numbered};
ghost use Rattle.std.specs.Prelude.{◌≡◌};

#[derive(Clone, Copy, Debug, PartialEq, Eq)]
pub enum Metric {
    CityBlock = 1, // the sum of the wells' absolute differences
    Largest = 2, // the largest of them
}

// A number that is no metric's.
#[derive(Clone, Copy, Debug, PartialEq, Eq)]
pub struct NoMetric(pub u8);

impl TryFrom<u8> for Metric {
    type Error = NoMetric;

    ghost try_from_gives = { Numbered };

    fn try_from(number: u8) -> Result<Self, NoMetric> {
        match number {
            1 => Ok(Metric::CityBlock),
            2 => Ok(Metric::Largest),
            _ => Err(NoMetric(number)),
        }
    }
}

impl Metric {
    pub fn number(self) -> u8
        ensures { result ≡ metric_number self }
    {
        self as u8
    }
}
