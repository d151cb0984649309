// Numbers outside a range.
ghost use Rattle.std.specs.Prelude.{◌≡◌};
ghost use Rattle.checker.specs.Tests.{outside as outside_of};

// Whether x is not one of low to high.
pub fn outside(low: usize, high: usize, x: usize) -> bool
    ensures { result ≡ outside_of low high x }
{
    !(low..=high).contains(&x)
}
