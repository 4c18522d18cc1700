//! Edits by name.
ghost use Rattle.constraint_names.specs.Laws.{ForNamedEdits, EditComesBack, TaintIsNamed, EditedIsNamed};

/// A change that is an edit by name is an edit.
pub fn edit_comes_back<K, U, V, L, W, X>()
    ensures { ForNamedEdits K U V L W X EditComesBack }
{}

/// What an edit taints is, by name, what the edit by name taints.
pub fn taint_is_named<K, U, V, L, W, X>()
    ensures { ForNamedEdits K U V L W X TaintIsNamed }
{}

/// What the machine's edit leaves is, by name, what the machine's edit by name leaves.
pub fn edited_is_named<K, U, V, L, W, X>()
    ensures { ForNamedEdits K U V L W X EditedIsNamed }
{}
