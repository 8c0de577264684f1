// The laws: functions that do nothing, whose contracts state what is proved of the definitions.
ghost use Rattle.sites.specs.calls.PassLaws.{BackedRowsNameTheDead, EachMomentIsLawful, ViewersHaveOneState};
ghost use Rattle.sites.specs.calls.RowLaws.{HasOneList};

/// A row has one list of statuses: two snapshots of one site never share a row, and `decode` of what `encode` gives is the snapshot.
pub fn one_list()
    ensures { HasOneList }
{}

/// What `check_sites` names over rows of different moments: where each row is backed by what the viewer of its site has seen, whoever is dead by all
/// the statuses is dead in each lawful state as far on as what all viewers have seen.
pub fn backed_rows_name_the_dead()
    ensures { BackedRowsNameTheDead }
{}

/// Whom a pass names is dead in some state: at each moment of a board some lawful state is as far on as what all its viewers have seen, and whoever is
/// dead in each such state is dead in that one.
pub fn each_moment_is_lawful()
    ensures { EachMomentIsLawful }
{}

/// The same of viewers at whatever moments, on a board that detects deadlock, where none of them knows a task exactly, and of each by itself some lawful
/// state is as far on as what it has seen.
pub fn viewers_have_one_state()
    ensures { ViewersHaveOneState }
{}
