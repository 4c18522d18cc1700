//! Values, visits and laws by name.
ghost use Rattle.constraint_names.specs.Laws.{ForNamed, BeginIsNamed, BoundIsNamed, ValuesAreNamed, SoundIsNamed, VisitsAreNamed, SettledIsLeastByName, OrderComesBack, RanksComeBack};

/// The state at the start is, by name, the one at the start.
pub fn begin_is_named<K, U, V, L, W, X>()
    ensures { ForNamed K U V L W X BeginIsNamed }
{}

/// The bound on visits is the same by name, where heights are.
pub fn bound_is_named<K, U, V, L, W, X>()
    ensures { ForNamed K U V L W X BoundIsNamed }
{}

/// What a list of steps gives stands, at each unknown, for what the steps by name give.
pub fn values_are_named<K, U, V, L, W, X>()
    ensures { ForNamed K U V L W X ValuesAreNamed }
{}

/// A sound state is sound by name.
pub fn sound_is_named<K, U, V, L, W, X>()
    ensures { ForNamed K U V L W X SoundIsNamed }
{}

/// A legal list of visits from a sound state is legal by name, and what it leaves is, by name, what the visits by name leave.
pub fn visits_are_named<K, U, V, L, W, X>()
    ensures { ForNamed K U V L W X VisitsAreNamed }
{}

/// In a sound state in which nothing waits the values stand for the least solution by name: the least of all values that
/// fit there, which may be more than those that one of the system's own stands for.
pub fn settled_is_least_by_name<K, U, V, L, W, X>()
    ensures { ForNamed K U V L W X SettledIsLeastByName }
{}

/// A system that is monotone by name is monotone, where its operations keep to values that fit and no two of these stand for
/// one value.
pub fn order_comes_back<K, U, V, L, W, X>()
    ensures { ForNamed K U V L W X OrderComesBack }
{}

/// The laws of ranks hold where they hold by name.
pub fn ranks_come_back<K, U, V, L, W, X>()
    ensures { ForNamed K U V L W X RanksComeBack }
{}
