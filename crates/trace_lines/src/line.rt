// What the lines of a trace say.

/// What a line says of its task or wildcard; a name is 1 to 64 bytes from 33 to 126.
#[derive(Clone, Copy, Debug)]
pub enum Announcement<'a> {
    /// It becomes a member of this phaser, with this phase.
    Joins(&'a [u8], u32),
    /// Its phase on this phaser rises by one.
    Arrives(&'a [u8]),
    /// It is no member of this phaser any more.
    Leaves(&'a [u8]),
    /// It waits until no member of this phaser has a phase below this one.
    Waits(&'a [u8], u32),
    /// It does not wait any more.
    Goes,
    /// It has ended.
    Ends,
    /// Nothing but where it is.
    Stands,
}

/// What a line of a trace says.
#[derive(Clone, Copy, Debug)]
pub enum TraceLine<'a> {
    /// Nothing: it is empty or begins with `#`.
    SaysNothing,
    /// A report is asked for.
    AsksReport,
    /// A list is asked for.
    AsksList,
    /// Every task and wildcard whose name begins so has ended.
    AreGone(&'a [u8]),
    /// What a task or wildcard announces of itself, and its place as it stands in the line.
    Announces(&'a [u8], Announcement<'a>, Option<&'a [u8]>),
    /// This is a wildcard that any task may play.
    PlaysAny(&'a [u8]),
    /// This is a wildcard that one of the tasks with these names may play; they stand one behind the other, a space between.
    PlaysOneOf(&'a [u8], &'a [u8]),
}
