// A logged world under a lock.
ghost use Rattle.std.specs.Prelude.{◌≡◌};

use crate::{Logged, PlanName};
use armus_base::{NoMemory, Plan};
use std::alloc::Global;
use std::sync::{Mutex, MutexGuard, Wait};

/// A logged world of N's plan that threads share: whoever takes the lock is lent it until the guard is dropped. What other threads have done to it is
/// known by its type alone: it is the replay of its journal.
#[derive(Drop)]
pub struct LockedWorld<'p, N: PlanName> {
    logged: Mutex<Logged<'p, N>>,
}

impl<'p, N: PlanName> LockedWorld<'p, N> {
    /// The opening world, with an empty journal, and the lock is free.
    pub fn start(alloc: Global, plan: &'p Plan) -> Result<LockedWorld<'p, N>, NoMemory>
        requires plan { plan.now ≡ N.plan }
    {
        Ok(LockedWorld {
            logged: Mutex::new(Logged::start(alloc, plan)?),
        })
    }

    /// Takes the lock, and waits for it where another thread has it.
    pub fn lock<R: Wait>(&self, rt: &R) -> MutexGuard<'_, Logged<'p, N>> {
        self.logged.lock(rt)
    }

    /// Ends the lock.
    pub fn into_logged(self) -> Logged<'p, N> {
        self.logged.into_inner()
    }
}
