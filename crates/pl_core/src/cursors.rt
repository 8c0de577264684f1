// The cursors of the tasks, one for each, at the op with which its code goes on.
ghost use Rattle.std.specs.Prelude.{◌≡◌, ◌<◌, [], IfOk, length, slice_get, slice_index_or};
ghost use Rattle.armus_base.specs.Finals.{list_below};
ghost use Rattle.armus_base.specs.Plans.{code_of};
ghost use Rattle.pl_core.specs.inside.Cursors.{moved_on};

use armus_base::{Cursor, NoMemory, Op, Plan, TaskId};
use std::alloc::Global;

/// A cursor for each task, at the first op of its code.
pub(crate) fn first_cursors<'p>(alloc: Global, plan: &'p Plan) -> Result<Vec<Cursor<'p>>, NoMemory>
    ensures { IfOk result (λ cursors. cursors.items ≡ list_below (code_of plan.now) (length plan.now.parents)) }
{
    let mut cursors = Vec::new(alloc);
    for t in 0..plan.tasks() {
        cursors.push(plan.cursor(TaskId(t)))?;
    }
    Ok(cursors)
}

/// The op at which a cursor stands; None at the end of its code.
pub(crate) fn op_at_cursor(cursors: &[Cursor<'_>], at: usize) -> Option<Op>
    requires { at < length cursors.now }
    ensures { result ≡ slice_get (slice_index_or cursors.now at []) 0 }
{
    cursors[at].peek()
}

/// Moves one cursor to its next op.
pub(crate) fn go_on(cursors: &mut Vec<Cursor<'_>>, at: usize)
    requires { at < length cursors.old.items }
    ensures { cursors.new.items ≡ moved_on cursors.old.items at }
{
    let cursor = &mut cursors[at];
    cursor.next();
}
