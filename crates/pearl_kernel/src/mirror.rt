// What a state keeps beside its tasks: the series of their plans, where the next one that fires is found, and the
// semaphores of their requests, where those that wait for one are found.

ghost use Rattle.std.specs.Prelude.{◌≡◌, ◌<◌, length, slice_set};
ghost use Rattle.pearl_timer.specs.Timetable.{changed, of_kind};
ghost use Rattle.pearl_sema.specs.Waiting.{AreThere};
ghost use Rattle.pearl_exchange.specs.Offers.{action_of};
ghost use Rattle.pearl_kernel.specs.Requests.{requested_by};
ghost use Rattle.pearl_kernel.specs.Timing.{series_of_plan as plan_series, series_of_activation as activation_series};

use pearl_exchange::offer::{Offer, What};
use pearl_rules::row::{Activation, Plan, TaskRow};
use pearl_rules::series::Series;
use pearl_sema::semas::Semas;
use pearl_timer::timer::{Timer, Which};

fn series_of_plan(plan: Option<Plan>) -> Option<Series>
    ensures { result ≡ plan_series plan }
{
    match plan {
        None => None,
        Some(plan) => plan.series,
    }
}

fn series_of_activation(activation: Option<Activation>) -> Option<Series>
    ensures { result ≡ activation_series activation }
{
    match activation {
        None => None,
        Some(activation) => activation.plan.series,
    }
}

fn keep(timer: &mut Timer, task: usize, which: Which, series: Option<Series>)
    requires { task < length (of_kind which timer.old) }
    ensures { timer.new ≡ changed timer.old task which series }
{
    match series {
        None => timer.clear(task, which),
        Some(series) => timer.set(task, which, series),
    }
}

/// The timer has the series of a task's plans as they stand in this row.
pub fn keep_row(timer: &mut Timer, task: usize, row: &TaskRow)
    requires continuations { task < length timer.old.continuations }
    requires activations { task < length timer.old.activations }
    ensures { timer.new ≡ record {
      continuations = slice_set timer.old.continuations task (plan_series row.now.continuation);
      activations = slice_set timer.old.activations task (activation_series row.now.activation);
    } }
{
    keep(
        timer,
        task,
        Which::Continuation,
        series_of_plan(row.continuation),
    );
    keep(
        timer,
        task,
        Which::Activation,
        series_of_activation(row.activation),
    );
}

/// The task waits for the semaphores of what it offers: those of a request, and else none.
pub fn keep_request(semas: &mut Semas, task: usize, offer: &Offer)
    requires task { task < length semas.old.waiting }
    requires list { AreThere semas.old.counts (requested_by (action_of offer.now)) }
    ensures { semas.new ≡ record semas.old {
      waiting = slice_set semas.old.waiting task (requested_by (action_of offer.now));
    } }
{
    match offer.what {
        What::Request => semas.wait(task, &offer.list),
        _ => semas.forget(task),
    }
}
