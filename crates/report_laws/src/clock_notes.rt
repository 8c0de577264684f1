// Laws of what is noted on clocks and finishes where nobody waits for ever.
ghost use Rattle.report_laws.specs.NotesOnClocks.{FinishesNeverWait, NobodyAdvancesThere, OnlyMakersAreRegistered};

/// In no state to which a run of the machine on a clock text leads an activity stands at an advance of a clock of which it is noted that nobody advances it; nobody but
/// its maker is registered on a clock of which it is noted that only its maker ever is; and a finish that is noted as one that never has to wait waits for nobody.
pub fn clock_notes_are_so()
    ensures advances { NobodyAdvancesThere }
    ensures registered { OnlyMakersAreRegistered }
    ensures finishes { FinishesNeverWait }
{}
