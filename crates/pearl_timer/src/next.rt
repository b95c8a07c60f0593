// The next moment at which a series fires.

ghost use Rattle.std.specs.Prelude.{◌+◌, ◌≤◌, MatchOption, SomeIff};
ghost use Rattle.pearl_rules.specs.Series.{FiresAt};
ghost use Rattle.pearl_timer.specs.Next.{IsNext, NoneIsNext};

use pearl_rules::series::Series;

// The least later moment at which a series fires.
pub(crate) fn next_after(series: Series, after: u64) -> Option<u64>
    ensures { MatchOption result (NoneIsNext (FiresAt series) after) (IsNext (FiresAt series) after) }
{
    if after < series.first {
        return moment_in(after, series.first - after, series.last);
    }
    if series.period == 0 {
        return None;
    }
    moment_in(
        after,
        series.period - (after - series.first) % series.period,
        series.last,
    )
}

// The moment that is so much later, where it isn't behind the last one.
fn moment_in(moment: u64, time: u64, last: u64) -> Option<u64>
    ensures { SomeIff result (moment + time ≤ last) (moment + time) }
{
    if moment <= last && time <= last - moment {
        Some(moment + time)
    } else {
        None
    }
}
