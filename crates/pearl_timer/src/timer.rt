// The series that are kept of tasks, and when one of them fires.

ghost use Rattle.std.specs.Prelude.{◌≡◌, ◌<◌, ◌≤◌, ◌^◌, ◌↔◌, ◌||◌, false, List, Option, Some, None, IsTrue, IfOk, IfSome, MatchOption, length, replicate, slice_index_or, slice_set};
ghost use Rattle.pearl_rules.specs.Series.{fires_if};
ghost use Rattle.pearl_timer.specs.Next.{IsNext, NoneIsNext, IsFirstFrom, NoneFrom, earlier};
ghost use Rattle.pearl_timer.specs.Timetable.{Timetable, FiresIn, IsTaskDue, IsDue, changed, due, of_kind};
ghost use Rattle.pearl_timer.specs.Kept.{both, FiresOf, HasKeyAt, IsKept, IsKeptIf, Notes, near, is_far};
ghost use Rattle.pearl_timer.specs.Wheel.{Moments, EachMoment};

use crate::next::next_after;
use crate::wheel::Wheel;
use pearl_rules::series::Series;
use std::alloc::{AllocError as NoMemory, Global};
use std::marker::Model;

// From this moment on the wheel keeps none.
const FAR: u64 = 1 << 42;

/// Which plan of a task a series belongs to.
#[derive(Clone, Copy, PartialEq, Eq, Debug)]
pub enum Which {
    Continuation,
    Activation,
}

/// Of each task the series of its continuation plan and that of its activation plan, where they are kept. Tasks are
/// numbered as they were declared.
#[derive(Drop)]
pub struct Timer {
    continuations: Vec<Option<Series>>,
    activations: Vec<Option<Series>>,
    // The next moment of each series, below 2^42: of a continuation under its task's number, of an activation 200 above.
    // For more than 200 tasks there is no wheel, and each series is looked at.
    wheel: Option<Wheel>,
    // Whether some series may fire at 2^42 or later.
    far: bool,
}

impl Model for Timer {
    ghost use Rattle.pearl_timer.specs.Timetable.{Timetable};
    ghost use Rattle.pearl_timer.specs.Kept.{both, IsKeptIf};

    ghost Value = { Timetable };

    ghost view = { λ t. record { continuations = t.continuations.items; activations = t.activations.items } };

    ghost invariant = { λ t. IsKeptIf (both t.continuations.items t.activations.items) t.wheel t.far };
}

impl Timer {
    /// A timer for so many tasks, of which no series is kept. It takes all the memory that it will ever need.
    pub fn new(alloc: Global, tasks: usize) -> Result<Timer, NoMemory>
        ensures { IfOk result (λ t.
            t ≡ record { continuations = replicate tasks None; activations = replicate tasks None }) }
    {
        let continuations = none_kept(alloc, tasks)?;
        let activations = none_kept(alloc, tasks)?;
        let wheel = first_wheel(alloc, tasks)?;
        Ok(Timer {
            continuations,
            activations,
            wheel,
            far: false,
        })
    }

    /// Keeps a series of a task, in place of the one of the same kind that it may have.
    pub fn set(&mut self, task: usize, which: Which, series: Series)
        requires { task < length (of_kind which self.old) }
        ensures { self.new ≡ changed self.old task which (Some series) }
    {
        match which {
            Which::Continuation => {
                self.continuations[task] = Some(series);
                note(
                    &mut self.wheel,
                    &mut self.far,
                    task,
                    Which::Continuation,
                    Some(series),
                );
            }
            Which::Activation => {
                self.activations[task] = Some(series);
                note(
                    &mut self.wheel,
                    &mut self.far,
                    task,
                    Which::Activation,
                    Some(series),
                );
            }
        }
    }

    /// Keeps a task's series of this kind no longer; where none is kept, nothing changes.
    pub fn clear(&mut self, task: usize, which: Which)
        requires { task < length (of_kind which self.old) }
        ensures { self.new ≡ changed self.old task which None }
    {
        match which {
            Which::Continuation => {
                self.continuations[task] = None;
                note(
                    &mut self.wheel,
                    &mut self.far,
                    task,
                    Which::Continuation,
                    None,
                );
            }
            Which::Activation => {
                self.activations[task] = None;
                note(
                    &mut self.wheel,
                    &mut self.far,
                    task,
                    Which::Activation,
                    None,
                );
            }
        }
    }

    /// Whether the series that is kept of a task fires at a moment; where none is kept, none fires.
    pub fn due(&self, task: usize, which: Which, t: u64) -> bool
        requires { task < length (of_kind which self.now) }
        ensures { result ≡ due self.now task which t }
    {
        let kept = match which {
            Which::Continuation => self.continuations[task],
            Which::Activation => self.activations[task],
        };
        match kept {
            None => false,
            Some(series) => series.fires(t),
        }
    }

    /// The least later moment at which a kept series fires. It changes none: it notes how far it has come, and finds the
    /// moment the sooner for it. Where it has come further before, it looks at each series once.
    pub fn next_due(&mut self, after: u64) -> Option<u64>
        ensures next { MatchOption result (NoneIsNext (IsDue self.old) after) (IsNext (IsDue self.old) after) }
        ensures same { self.new ≡ self.old }
    {
        let continuations = self.continuations.as_slice();
        let activations = self.activations.as_slice();
        match &mut self.wheel {
            None => scan(continuations, activations, after),
            Some(wheel) => next_by(wheel, &mut self.far, continuations, activations, after),
        }
    }

    /// The first task from one on of which a kept series fires at a moment. Right behind the moment up to which
    /// [`Timer::next_due`] has come, it finds the task in a few words, else it looks at the series of each.
    pub fn next_task(&self, from: usize, moment: u64) -> Option<usize>
        ensures { MatchOption result (NoneFrom (IsTaskDue self.now moment) from)
            (IsFirstFrom (IsTaskDue self.now moment) from) }
    {
        let continuations = self.continuations.as_slice();
        let activations = self.activations.as_slice();
        match &self.wheel {
            None => first_due(continuations, activations, from, moment),
            Some(wheel) => first_by(wheel, self.far, continuations, activations, from, moment),
        }
    }
}

// A wheel for so many tasks; none where they are more than its keys are for.
fn first_wheel(alloc: Global, tasks: usize) -> Result<Option<Wheel>, NoMemory>
    ensures { IfOk result (λ wheel. IsKeptIf (both (replicate tasks None) (replicate tasks None)) wheel false) }
{
    if tasks > 200 {
        return Ok(None);
    }
    let wheel = Wheel::new(alloc, 400)?;
    Ok(Some(wheel))
}

// The wheel, where there is one, keeps the next moment of a task's series, which is this one or none from now on.
fn note(
    wheel: &mut Option<Wheel>,
    far: &mut bool,
    task: usize,
    which: Which,
    series: Option<Series>,
)
    requires few { IfSome wheel.old (λ wheel. (task < 200) × (length wheel.moments ≡ 400)) }
    ensures { Notes task which series wheel.old far.old wheel.new far.new }
{
    if let Some(wheel) = wheel {
        let key = match which {
            Which::Continuation => task,
            Which::Activation => task + 200,
        };
        let next = next_if(series, wheel.elapsed());
        keep(wheel, far, key, next);
    }
}

// The next moment of a series, where there is one.
fn next_if(series: Option<Series>, after: u64) -> Option<u64>
    ensures { MatchOption result (NoneIsNext (λ t. IsTrue (fires_if series t)) after) (IsNext (λ t. IsTrue (fires_if series t)) after) }
{
    match series {
        None => None,
        Some(series) => next_after(series, after),
    }
}

// The next moment of all by a wheel, or, where it has come further, by a look at each series.
fn next_by(
    wheel: &mut Wheel,
    far: &mut bool,
    continuations: &[Option<Series>],
    activations: &[Option<Series>],
    after: u64,
) -> Option<u64>
    requires { IsKept (both continuations.now activations.now) wheel.old far.old }
    ensures kept { IsKept (both continuations.now activations.now) wheel.new far.new }
    ensures next { let timetable : Timetable = both continuations.now activations.now in
        MatchOption result (NoneIsNext (IsDue timetable) after) (IsNext (IsDue timetable) after) }
{
    if after < wheel.elapsed() {
        return scan(continuations, activations, after);
    }
    move_on(wheel, far, continuations, activations, after);
    soonest(wheel, *far, continuations, activations, after)
}

// The first task from one on of which a series fires, by a wheel that stands right before the moment, or by a look at
// each series.
fn first_by(
    wheel: &Wheel,
    far: bool,
    continuations: &[Option<Series>],
    activations: &[Option<Series>],
    from: usize,
    moment: u64,
) -> Option<usize>
    requires { IsKept (both continuations.now activations.now) wheel.now far }
    ensures { let timetable : Timetable = both continuations.now activations.now in
        MatchOption result (NoneFrom (IsTaskDue timetable moment) from)
        (IsFirstFrom (IsTaskDue timetable moment) from) }
{
    let elapsed = wheel.elapsed();
    if from < 200 && moment < FAR && elapsed < moment && moment - elapsed == 1 {
        return next_kept(wheel, from, moment);
    }
    first_due(continuations, activations, from, moment)
}

// Keeps the next moment of a series, or notes that it is far.
fn keep(wheel: &mut Wheel, far: &mut bool, key: usize, next: Option<u64>)
    requires { key < length wheel.old.moments }
    ensures wheel { wheel.new ≡ record wheel.old { moments = slice_set wheel.old.moments key (near next) } }
    ensures far { far.new ≡ (is_far next || far.old) }
{
    match next {
        None => wheel.clear(key),
        Some(moment) => {
            if moment < FAR {
                wheel.set(key, moment);
            } else {
                wheel.clear(key);
                *far = true;
            }
        }
    }
}

// The next moment of the series of a key.
fn next_of(
    continuations: &[Option<Series>],
    activations: &[Option<Series>],
    key: usize,
    after: u64,
) -> Option<u64>
    ensures { let timetable : Timetable = both continuations.now activations.now in
        MatchOption result (NoneIsNext (FiresOf timetable key) after) (IsNext (FiresOf timetable key) after) }
{
    let series = if key < 200 {
        continuations.get(key)
    } else {
        activations.get(key - 200)
    };
    match series {
        Some(Some(series)) => next_after(*series, after),
        _ => None,
    }
}

// Moves the wheel on, and keeps the next moment of each series.
fn move_on(
    wheel: &mut Wheel,
    far: &mut bool,
    continuations: &[Option<Series>],
    activations: &[Option<Series>],
    after: u64,
)
    requires forward { wheel.old.elapsed ≤ after }
    requires kept { IsKept (both continuations.now activations.now) wheel.old far.old }
    ensures kept { IsKept (both continuations.now activations.now) wheel.new far.new }
    ensures reached { wheel.new.elapsed ≡ after }
    ensures ahead { EachMoment wheel.new (λ when. after < when) }
{
    while let Some(key) = wheel.poll(after) {
        let next = next_of(continuations, activations, key, after);
        keep(wheel, far, key, next);
    }
}

// The next moment of all, where the wheel has come to the moment that it is to follow.
fn soonest(
    wheel: &Wheel,
    far: bool,
    continuations: &[Option<Series>],
    activations: &[Option<Series>],
    after: u64,
) -> Option<u64>
    requires kept { IsKept (both continuations.now activations.now) wheel.now far }
    requires reached { wheel.now.elapsed ≡ after }
    requires ahead { EachMoment wheel.now (λ when. after < when) }
    ensures { let timetable : Timetable = both continuations.now activations.now in
        MatchOption result (NoneIsNext (IsDue timetable) after) (IsNext (IsDue timetable) after) }
{
    match wheel.least() {
        Some(next) => Some(next),
        None => {
            if far {
                scan(continuations, activations, after)
            } else {
                None
            }
        }
    }
}

// The next moment of all, by a look at each series.
fn scan(continuations: &[Option<Series>], activations: &[Option<Series>], after: u64) -> Option<u64>
    ensures { let timetable : Timetable = both continuations.now activations.now in
        MatchOption result (NoneIsNext (IsDue timetable) after) (IsNext (IsDue timetable) after) }
{
    let continuation = next_in(continuations, after);
    let activation = next_in(activations, after);
    earlier(continuation, activation)
}

// The first task from one on of which a key has this moment, which lies ahead.
fn next_kept(wheel: &Wheel, from: usize, moment: u64) -> Option<usize>
    requires from { from < 200 }
    requires ahead { wheel.now.elapsed < moment }
    requires near { moment < 2 ^ 42 }
    ensures { MatchOption result (NoneFrom (HasKeyAt wheel.now moment) from)
        (IsFirstFrom (HasKeyAt wheel.now moment) from) }
{
    let continuation = wheel.next_at(moment, from, 200);
    let end = continuation.unwrap_or(200);
    match wheel.next_at(moment, from + 200, end + 200) {
        Some(key) => Some(key - 200),
        None => continuation,
    }
}

// The first task from one on of which one of these series fires, by a look at each.
fn first_due(
    continuations: &[Option<Series>],
    activations: &[Option<Series>],
    from: usize,
    moment: u64,
) -> Option<usize>
    ensures { let timetable : Timetable = both continuations.now activations.now in
        MatchOption result (NoneFrom (IsTaskDue timetable moment) from)
        (IsFirstFrom (IsTaskDue timetable moment) from) }
{
    let tasks = continuations.len().max(activations.len());
    for task in from..tasks {
        if is_due(continuations, activations, task, moment) {
            return Some(task);
        }
    }
    None
}

// Whether a series of the task fires.
fn is_due(
    continuations: &[Option<Series>],
    activations: &[Option<Series>],
    task: usize,
    moment: u64,
) -> bool
    ensures { IsTrue result ↔ IsTaskDue (both continuations.now activations.now) moment task }
{
    fires_in(continuations, task, moment) || fires_in(activations, task, moment)
}

// Whether the series of a task fires, where it has one.
fn fires_in(kept: &[Option<Series>], task: usize, moment: u64) -> bool
    ensures { result ≡ fires_if (slice_index_or kept.now task None) moment }
{
    match kept.get(task) {
        Some(Some(series)) => series.fires(moment),
        _ => false,
    }
}

fn none_kept(alloc: Global, tasks: usize) -> Result<Vec<Option<Series>>, NoMemory>
    ensures { IfOk result (λ kept. kept.items ≡ replicate tasks None) }
{
    let mut kept = Vec::with_capacity(alloc, tasks)?;
    for _ in 0..tasks {
        kept.push(None)?;
    }
    Ok(kept)
}

// The least later moment at which one of these series fires.
fn next_in(kept: &[Option<Series>], after: u64) -> Option<u64>
    ensures { MatchOption result (NoneIsNext (FiresIn kept.now) after) (IsNext (FiresIn kept.now) after) }
{
    let mut next = None;
    for series in kept {
        if let Some(series) = series {
            next = earlier(next, next_after(*series, after));
        }
    }
    next
}

// The earlier of two moments, or the one that there is.
fn earlier(a: Option<u64>, b: Option<u64>) -> Option<u64>
    ensures { result ≡ earlier a b }
{
    match (a, b) {
        (Some(a), Some(b)) => Some(a.min(b)),
        (None, other) | (other, None) => other,
    }
}

#[cfg(test)]
mod tests {
    use super::*;
    use std::test::Fail;

    #[test]
    fn the_next_moment_is_the_least_of_both_kinds(rt: HostRuntime) -> Result<(), Fail> {
        let mut timer = Timer::new(rt.alloc(), 2)?;
        let often = Series {
            first: 1000,
            period: 500,
            last: 2200,
        };
        let once = Series {
            first: 1700,
            period: 0,
            last: u64::MAX,
        };
        timer.set(0, Which::Activation, often);
        timer.set(1, Which::Continuation, once);
        assert!(rt; timer.due(0, Which::Activation, 1500));
        assert_eq!(rt; timer.next_due(1500), Some(1700));
        assert_eq!(rt; timer.next_task(0, 1700), Some(1));
        assert_eq!(rt; timer.next_due(1699), Some(1700));
        assert_eq!(rt; timer.next_task(0, 1700), Some(1));
        timer.clear(1, Which::Continuation);
        assert_eq!(rt; timer.next_due(1500), Some(2000));
        assert_eq!(rt; timer.next_due(2000), None);
        Ok(())
    }
}
