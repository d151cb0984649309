// A metric and a width, written out.
ghost use Rattle.std.specs.Prelude.{ℕ};
ghost use Rattle.profile.specs.declared.metric.Metric.{Metric};

use crate::metric::Metric;

// What is done by a metric and a width. Where `run` is marked `#[inline(always)]`, its loops over the wells are unrolled for each of both.
// A closure would be shorter, and is slower: it cannot be marked, and the compiler keeps one body of it, which knows neither.
pub trait Task {
    type Output;

    ghost can_run: { Self → Metric → ℕ → Type 0 };

    ghost run_gives: { Self → Metric → ℕ → Self.Output → Type 0 };

    fn run(self, metric: Metric, wells: usize) -> Self::Output
        requires { can_run self metric wells }
        ensures { run_gives self metric wells result };
}

#[inline(always)]
fn by_metric<T: Task>(task: T, metric: Metric, wells: usize) -> T::Output
    requires { T.can_run task metric wells }
    ensures { T.run_gives task metric wells result }
{
    match metric {
        Metric::CityBlock => task.run(Metric::CityBlock, wells),
        Metric::Largest => task.run(Metric::Largest, wells),
    }
}

// Runs a task by a metric and a width that stand in the code. No profile has a width that comes to the last arm, which a match on a number
// needs.
#[inline(always)]
pub fn written_out<T: Task>(task: T, metric: Metric, wells: usize) -> T::Output
    requires { T.can_run task metric wells }
    ensures { T.run_gives task metric wells result }
{
    match wells {
        1 => by_metric(task, metric, 1),
        2 => by_metric(task, metric, 2),
        3 => by_metric(task, metric, 3),
        4 => by_metric(task, metric, 4),
        5 => by_metric(task, metric, 5),
        6 => by_metric(task, metric, 6),
        7 => by_metric(task, metric, 7),
        8 => by_metric(task, metric, 8),
        9 => by_metric(task, metric, 9),
        10 => by_metric(task, metric, 10),
        11 => by_metric(task, metric, 11),
        12 => by_metric(task, metric, 12),
        13 => by_metric(task, metric, 13),
        14 => by_metric(task, metric, 14),
        15 => by_metric(task, metric, 15),
        16 => by_metric(task, metric, 16),
        _ => by_metric(task, metric, wells),
    }
}
