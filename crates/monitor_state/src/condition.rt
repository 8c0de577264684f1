// In which condition a task or wildcard is.

/// In which condition a task or wildcard is. The last two are of wildcards.
#[derive(Debug, Drop)]
pub enum ListedCondition {
    /// A task that neither waits nor has ended.
    Running,
    /// A task that waits until no member of this phaser has a phase below this one.
    Waiting(Vec<u8>, u32),
    /// A task that has ended, or a wildcard that is gone.
    Ended,
    /// Any task may play it.
    AnyTask,
    /// One of these tasks may play it: their names as its line had them, a space between, and the numbers of those that were there then, in list order.
    OneOf(Vec<u8>, Vec<u64>),
}

impl ListedCondition {
    ghost use Rattle.std.specs.Prelude.{◌≡◌, length};
    ghost use Rattle.monitor_laws.specs.Faults.{tasks_had, waits_now};
    ghost use Rattle.monitor_laws.specs.States.{is_live_task, is_live_wildcard};
    ghost use Rattle.monitor_state.specs.Indexes.{is_running};
    ghost use Rattle.monitor_state.specs.Values.{condition_value};

    /// Whether it is of a task that has not ended.
    pub fn is_live_task(&self) -> bool
        ensures { result ≡ is_live_task (condition_value self.now) }
    {
        matches!(
            self,
            ListedCondition::Running | ListedCondition::Waiting(_, _)
        )
    }

    /// Whether it is of a wildcard that is not gone.
    pub fn is_live_wildcard(&self) -> bool
        ensures { result ≡ is_live_wildcard (condition_value self.now) }
    {
        matches!(
            self,
            ListedCondition::AnyTask | ListedCondition::OneOf(_, _)
        )
    }

    /// Whether it is of a task that runs: it neither waits nor has ended.
    pub fn is_running(&self) -> bool
        ensures { result ≡ is_running (condition_value self.now) }
    {
        matches!(self, ListedCondition::Running)
    }

    /// Whether it is of a task that waits.
    pub fn waits(&self) -> bool
        ensures { result ≡ waits_now (condition_value self.now) }
    {
        matches!(self, ListedCondition::Waiting(_, _))
    }

    /// How many tasks a wildcard has.
    pub(crate) fn tasks_had(&self) -> usize
        ensures { result ≡ length (tasks_had (condition_value self.now)) }
    {
        match self {
            ListedCondition::OneOf(_, tasks) => tasks.len(),
            _ => 0,
        }
    }
}
