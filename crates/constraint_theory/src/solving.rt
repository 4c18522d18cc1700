//! What visits lead to, and how many there can be.
ghost use Rattle.constraint_theory.specs.Laws.{ForMonotone, ForSystems, ForTests, SettledIsLeast, ReplayIsLeast, LeastIsUnique, SettledIsLeastOfValid, NarrowerIsMonotone, BeginIsSound, VisitsKeepSound, VisitsAreBounded, UnfinishedVisitsAreFewer, VisitsWithinBound, VisitsFromSound};

/// In a sound state in which nothing waits the values are the least solution.
pub fn settled_is_least<K, U, V>()
    ensures { ForMonotone K U V SettledIsLeast }
{}

/// Whoever made the steps: where their replay satisfies each constraint, it is the least solution.
pub fn replay_is_least<K, U, V>()
    ensures { ForMonotone K U V ReplayIsLeast }
{}

/// Two least solutions have the same value at each unknown, whatever led to them.
pub fn least_is_unique<K, U, V>()
    ensures { ForMonotone K U V LeastIsUnique }
{}

/// The same among all values that are valid by a wider test than the system's own: in a sound state in which nothing waits
/// the values are the least of all valid solutions, where the system is monotone on the valid values.
pub fn settled_is_least_of_valid<K, U, V>()
    ensures { ForTests K U V SettledIsLeastOfValid }
{}

/// Where a system is monotone on all valid values, it is on the fewer that fit, if bottom, joins and constraints keep to
/// these. So the laws of order are shown once, for all values, and the laws of ranks for those that fit.
pub fn narrower_is_monotone<K, U, V>()
    ensures { ForTests K U V NarrowerIsMonotone }
{}

/// The state at the start is sound.
pub fn begin_is_sound<K, U, V>()
    ensures { ForMonotone K U V BeginIsSound }
{}

/// Each legal list of visits keeps a state sound.
pub fn visits_keep_sound<K, U, V>()
    ensures { ForMonotone K U V VisitsKeepSound }
{}

/// The one law on visits. Over a set of unknowns that holds the targets of the waiting keys and, with an unknown, the
/// targets of its readers, no legal list of visits from a sound state is longer than the number of waiting keys plus
/// the sum, over the set, of height times number of readers.
pub fn visits_are_bounded<K, U, V>()
    ensures { ForSystems K U V VisitsAreBounded }
{}

/// The same law: a list of visits after which something waits still is shorter than that.
pub fn unfinished_visits_are_fewer<K, U, V>()
    ensures { ForSystems K U V UnfinishedVisitsAreFewer }
{}

/// From the start no legal list of visits is longer than the bound: the law over all unknowns.
pub fn visits_within_bound<K, U, V>()
    ensures { ForSystems K U V VisitsWithinBound }
{}

/// From a sound state no legal list of visits is longer than the bound.
pub fn visits_from_sound<K, U, V>()
    ensures { ForSystems K U V VisitsFromSound }
{}
