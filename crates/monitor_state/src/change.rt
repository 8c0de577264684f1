// What a line changes of the one that it names.

use crate::ListedCondition;
use trace_lines::Announcement;

/// What a line changes of the task or wildcard that it names.
#[derive(Drop)]
pub(crate) enum Change<'a> {
    /// It says this, with a place as it stands in the line, or without one.
    Says(&'a Announcement<'a>, Option<&'a [u8]>),
    /// It is a wildcard, in this condition.
    Plays(ListedCondition),
}
