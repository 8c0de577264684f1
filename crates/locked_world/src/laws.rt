// Laws of journals.
ghost use Rattle.locked_world.specs.calls.Laws.{JournalFixesRun, JournalLeads, LeadsIsJournal, EachGoesOn, ReplayedState};

/// A journal leads to its run: each of its tasks, in order, makes the next action by its code, which is legal there; and tasks that do so are the journal of
/// a plain run.
pub fn journal_leads()
    ensures leads { JournalLeads }
    ensures journal { LeadsIsJournal }
    ensures each { EachGoesOn }
{}

/// A journal fixes its run, and the world that is its replay has the state after this run.
pub fn journal_fixes_run()
    ensures run { JournalFixesRun }
    ensures state { ReplayedState }
{}
