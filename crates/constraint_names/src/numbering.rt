//! A system under numbers.
ghost use Rattle.constraint_names.specs.Laws.{ForNumberings, NumberedIsNamed, NumberedIsLawful};

/// A system under numbers is that system by name.
pub fn numbered_is_named<L, W, X>()
    ensures { ForNumberings L W X NumberedIsNamed }
{}

/// It meets the laws that the system meets.
pub fn numbered_is_lawful<L, W, X>()
    ensures { ForNumberings L W X NumberedIsLawful }
{}
