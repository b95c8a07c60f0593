// What is kept of the tasks: whether what each has offered can be done, and the set of those that can act. It is renewed
// after each change, and only offers that wait for what changed are asked again.

ghost use Rattle.std.specs.Prelude.{◌≡◌, ◌<◌, ◌≤◌, Some, None, false, IfOk, MatchOption, length, replicate};
ghost use Rattle.pearl_sema.specs.Waiting.{Waits};
ghost use Rattle.pearl_ready.specs.Best.{best_of, IsEmpty, IsBest};
ghost use Rattle.pearl_kernel.specs.Names.{NamesAll};
ghost use Rattle.pearl_kernel.specs.Eligible.{possible, able_at, noted};
ghost use Rattle.pearl_kernel.specs.Whole.{IsOfTasks};
ghost use Rattle.pearl_kernel.specs.declared.changes.Changed.TheVariants.{Counts, Device};
ghost use Rattle.pearl_kernel.specs.Changes.{Renews, AreRenewedBut, AreRenewedIf, IsUnmoved};
ghost use Rattle.pearl_kernel.specs.Listening.{Listens};
ghost use Rattle.pearl_kernel.specs.Requests.{requests, WaitsForOne};
ghost use Rattle.pearl_kernel.specs.Touched.{reach_of, IsThere, IsRenewed};

use crate::changes::{Changed, Touched};
use crate::state::State;
use pearl_ready::ready::Ready;
use std::alloc::{AllocError, Global};
use std::marker::Model;

/// Of each task whether what it has offered can be done, and the set of the tasks that can act.
#[derive(Drop)]
pub struct Standing {
    able: Vec<bool>,
    ready: Ready,
}

impl Model for Standing {
    ghost use Rattle.std.specs.Prelude.{◌≡◌, length};
    ghost use Rattle.pearl_kernel.specs.Eligible.{Stand};

    ghost Value = { Stand };

    ghost view = { λ s. record { able = s.able.items; set = s.ready } };

    ghost invariant = { λ s. length s.ready ≡ length s.able.items };
}

impl Standing {
    /// Nothing is offered, and no task can act. It takes all the memory that it will ever need.
    pub fn new(alloc: Global, tasks: usize) -> Result<Standing, AllocError>
        requires { tasks ≤ 200 }
        ensures { IfOk result (λ s. s ≡ record { able = replicate tasks false; set = replicate tasks None }) }
    {
        let able = vec![in alloc; false; tasks]?;
        let ready = Ready::new(alloc, tasks)?;
        Ok(Standing { able, ready })
    }

    /// The task that acts next, where `last` is the one that acted last.
    pub fn best(&self, last: Option<usize>) -> Option<usize>
        ensures rule { MatchOption result (IsEmpty self.now.set) (IsBest last self.now.set) }
        ensures found { result ≡ best_of last self.now.set }
    {
        self.ready.best(last)
    }

    /// Whether what a task has offered can be done.
    pub fn is_able(&self, task: u32) -> bool
        ensures { result ≡ able_at self.now task }
    {
        match self.able.get(task as usize) {
            None => false,
            Some(able) => *able,
        }
    }

    fn note(&mut self, state: &State, task: u32, able: bool)
        requires { task < length self.old.able }
        ensures noted { self.new ≡ noted state.now task able self.old }
        ensures alike { length self.new.set ≡ length self.new.able }
    {
        self.able[task as usize] = able;
        match state.entry_if(task, able) {
            None => self.ready.take(task as usize),
            Some(priority) => self.ready.put(task as usize, priority),
        }
    }

    /// A task has a new offer.
    pub fn offered(&mut self, state: &State, task: u32)
        requires there { task < length self.old.able }
        requires names { NamesAll state.now }
        ensures { self.new ≡ noted state.now task (possible state.now task) self.old }
    {
        self.note(state, task, state.is_possible(task));
    }

    /// A task's row is another one, and nothing that its offer waits for has changed.
    pub fn moved(&mut self, state: &State, task: u32)
        requires { task < length self.old.able }
        ensures { self.new ≡ noted state.now task (able_at self.old task) self.old }
    {
        self.note(state, task, self.is_able(task));
    }

    fn renew_one(&mut self, state: &State, task: u32, changed: Changed)
        requires there { task < length self.old.able }
        requires names { NamesAll state.now }
        ensures { Renews state.now changed task self.old self.new }
    {
        let able = state.renewed(task, changed, self.is_able(task));
        self.note(state, task, able);
    }

    // Each task stands as it does now, where at most this changed of what offers wait for.
    fn renew_all(&mut self, state: &State, changed: Changed)
        requires { IsOfTasks state.now self.old }
        ensures { AreRenewedBut state.now changed (λ t. ⊥) self.old self.new }
    {
        let count = state.tasks() as u32;
        for task in 0..count {
            self.renew_one(state, task, changed);
        }
    }

    // Each task whose request names this semaphore stands as it does now.
    fn renew_waiters(&mut self, state: &State, semaphore: u16)
        requires { IsOfTasks state.now self.old }
        ensures { AreRenewedBut state.now Counts (λ t. Waits (requests state.now.offers) semaphore t → ⊥) self.old self.new }
    {
        let mut after = None;
        while let Some(task) = state.waiter(semaphore, after) {
            self.renew_one(state, task as u32, Changed::Counts);
            after = Some(task);
        }
    }

    // Each task whose request names one of these semaphores stands as it does now.
    fn renew_each(&mut self, state: &State, list: &[u16])
        requires { IsOfTasks state.now self.old }
        ensures { AreRenewedBut state.now Counts (λ t. WaitsForOne state.now.offers list.now t → ⊥) self.old self.new }
    {
        for semaphore in list {
            self.renew_waiters(state, *semaphore);
        }
    }

    // Each task whose offer waits at this device stands as it does now.
    fn renew_at(&mut self, state: &State, device: u32)
        requires { IsOfTasks state.now self.old }
        ensures { AreRenewedBut state.now (Device device) (λ t. Listens state.now.offers device t → ⊥) self.old self.new }
    {
        let mut after = None;
        while let Some(task) = state.listener(device, after) {
            self.renew_one(state, task as u32, Changed::Device(device));
            after = Some(task);
        }
    }

    // Each task that this change may touch stands as it does now.
    fn renew_after(&mut self, state: &State, changed: Changed)
        requires { IsOfTasks state.now self.old }
        ensures { AreRenewedBut state.now changed (IsUnmoved state.now changed) self.old self.new }
    {
        match changed {
            Changed::Device(device) => self.renew_at(state, device),
            _ => self.renew_all(state, changed),
        }
    }

    /// The same where something may have changed that matters to a task.
    pub fn renew_if(&mut self, state: &State, changed: Option<Changed>)
        requires { IsOfTasks state.now self.old }
        ensures { AreRenewedIf state.now changed self.old self.new }
    {
        match changed {
            None => {}
            Some(changed) => self.renew_after(state, changed),
        }
    }

    /// Each task stands as it does after an action of the task `own` that names these semaphores.
    pub fn renew(&mut self, state: &State, own: u32, list: &[u16], touched: Touched)
        requires tasks { IsOfTasks state.now self.old }
        requires own { own < length state.now.core.tasks }
        requires there { IsThere state.now.core (reach_of list.now touched) }
        ensures { IsRenewed state.now own (reach_of list.now touched) self.old self.new }
    {
        match touched {
            Touched::Own => self.renew_one(state, own, Changed::Nothing),
            Touched::Other(task) => {
                self.renew_one(state, task, Changed::Nothing);
                self.renew_one(state, own, Changed::Nothing);
            }
            Touched::One(semaphore) => {
                self.renew_each(state, &[semaphore]);
                self.renew_one(state, own, Changed::Counts);
            }
            Touched::Named => {
                self.renew_each(state, list);
                self.renew_one(state, own, Changed::Counts);
            }
            Touched::After(changed) => {
                self.renew_after(state, changed);
                self.renew_one(state, own, changed);
            }
        }
    }
}
