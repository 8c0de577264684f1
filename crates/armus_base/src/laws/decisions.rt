// Laws of decisions.
ghost use Rattle.armus_base.specs.calls.DecisionLaws.{FindsStay, FoundArePublished, ListDecides, ListInHandAvoids, ListInHandDecides, LoadKeepsLock};

/// The list in hand decides: it tells whether an await would be dead, and whether anybody is, in each lawful state that has the lock with the seat.
pub fn list_decides()
    ensures enough { ListDecides }
    ensures found { FoundArePublished }
    ensures in_hand { ListInHandDecides }
    ensures avoids { ListInHandAvoids }
    ensures load { LoadKeepsLock }
    ensures finds_stay { FindsStay }
{}
