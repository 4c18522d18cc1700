//! What an edit of the system leaves of a state, and how many visits follow it.
ghost use Rattle.constraint_theory.specs.Laws.{ForEdits, ForRankedEdits, EditKeepsSound, EditRenamesValues, IdleGoneTaintsNothing, TaintLiesInRegion, VisitsAfterEdit};

/// The machine's edit keeps a state sound.
pub fn edit_keeps_sound<K, U, V>()
    ensures { ForEdits K U V EditKeepsSound }
{}

/// The values after an edit are the renamed ones, with bottom at tainted and at new unknowns.
pub fn edit_renames_values<K, U, V>()
    ensures { ForEdits K U V EditRenamesValues }
{}

/// Where no key that is gone is among the steps, the edit takes out no step and renames each value that stays.
pub fn idle_gone_taints_nothing<K, U, V>()
    ensures { ForEdits K U V IdleGoneTaintsNothing }
{}

/// What is tainted lies in each set that holds the targets of gone keys and all that follows from them.
pub fn taint_lies_in_region<K, U, V>()
    ensures { ForEdits K U V TaintLiesInRegion }
{}

/// After an edit of a sound state in which nothing waits, no legal list of visits is longer than the edit's bound: the
/// one law on visits over the unknowns that the edit reaches.
pub fn visits_after_edit<K, U, V>()
    ensures { ForRankedEdits K U V VisitsAfterEdit }
{}
