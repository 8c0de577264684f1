// What a world keeps of each task.
ghost use Rattle.std.specs.Prelude.{◌≡◌, ◌<◌, ◌+◌, ◌^◌, Some, IfOk, length, slice_get};
ghost use Rattle.pl_core.specs.inside.Changes.{after_block, after_op, after_fork, after_refusal, opening_tasks};

use crate::Place;
use armus_base::{Event, NoMemory};
use std::alloc::Global;

#[derive(Clone, Copy, Debug, PartialEq, Eq)]
pub(crate) struct TaskRecord {
    pub(crate) place: Place,
    // the index of its next op, or of the await that it has begun
    pub(crate) op: u32,
    // the event on which it is published, or at which it is refused
    pub(crate) event: Option<Event>,
    pub(crate) forked: bool,
}

impl TaskRecord {
    /// It has published the event.
    pub(crate) fn after_block(self, event: Event) -> TaskRecord
        requires fits { self.place.events + 1 < 2 ^ 32 }
        ensures { result ≡ after_block self event }
    {
        TaskRecord {
            place: Place {
                events: self.place.events + 1,
                ..self.place
            },
            event: Some(event),
            ..self
        }
    }

    /// It has made the last event of its op.
    pub(crate) fn after_op(self) -> TaskRecord
        requires fits { self.place.events + 1 < 2 ^ 32 }
        requires op_fits { self.op + 1 < 2 ^ 32 }
        ensures { result ≡ after_op self }
    {
        TaskRecord {
            place: Place {
                events: self.place.events + 1,
                ..self.place
            },
            op: self.op + 1,
            event: None,
            ..self
        }
    }

    /// Its await of the event is refused.
    pub(crate) fn after_refusal(self, event: Event) -> TaskRecord
        ensures { result ≡ after_refusal self event }
    {
        TaskRecord {
            place: Place {
                refused: true,
                ..self.place
            },
            event: Some(event),
            ..self
        }
    }

    /// It is forked.
    pub(crate) fn after_fork(self) -> TaskRecord
        ensures { result ≡ after_fork self }
    {
        TaskRecord {
            forked: true,
            ..self
        }
    }
}

/// What is kept of one task.
pub(crate) fn task_at(tasks: &[TaskRecord], at: usize) -> TaskRecord
    requires { at < length tasks.now }
    ensures { slice_get tasks.now at ≡ Some result }
{
    tasks[at]
}

/// What is kept of the tasks before any event.
pub(crate) fn first_tasks(alloc: Global, count: usize) -> Result<Vec<TaskRecord>, NoMemory>
    requires { 0 < count }
    ensures { IfOk result (λ tasks. tasks.items ≡ opening_tasks count) }
{
    let unbegun = TaskRecord {
        place: Place {
            events: 0,
            refused: false,
        },
        op: 0,
        event: None,
        forked: false,
    };
    let mut tasks = vec![in alloc; unbegun; count]?;
    tasks[0] = unbegun.after_fork();
    Ok(tasks)
}
