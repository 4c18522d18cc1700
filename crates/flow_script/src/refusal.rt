use aterm_text::TermRefusal;
use flow_term::PathRefusal;
use std::alloc::AllocError;

/// What is wrong with a script.
#[derive(Clone, Copy, Debug, PartialEq, Eq)]
pub enum ScriptFaultKind {
    /// The text isn't UTF-8: no character begins at a byte of this line. This is looked for in the whole text before all else.
    NotUtf8,
    /// The line's first word is no command, or the command has another number of parts.
    Command,
    /// The second part of an `edit` is no path.
    Path,
    /// What follows the path of an `edit` is no term.
    Term,
    /// The second part of a `solve` is no number of one to nineteen digits.
    Number,
}

/// Why there is no script.
#[derive(Clone, Copy, Debug, PartialEq, Eq)]
pub enum ScriptRefusal {
    /// The first fault: the number of its line, counted from 1, and its kind.
    Fault { line: u64, kind: ScriptFaultKind },
    /// Memory ran out.
    NoMemory,
}

impl From<AllocError> for ScriptRefusal {
    ghost use Rattle.std.specs.Prelude.{◌≡◌};
    ghost use Rattle.flow_script.specs.declared.refusal.ScriptRefusal.TheVariants.{NoMemory};

    ghost from_gives = { λ _ e. e ≡ NoMemory };

    fn from(_error: AllocError) -> ScriptRefusal {
        ScriptRefusal::NoMemory
    }
}

/// Why a line has no command that can be done.
#[derive(Clone, Copy)]
pub enum LineRefusal {
    Fault(ScriptFaultKind),
    NoMemory,
}

impl LineRefusal {
    ghost use Rattle.std.specs.Prelude.{◌≡◌};
    ghost use Rattle.flow_script.specs.inner.Answers.{at_line, refused_path, refused_term};

    /// The refusal of a script whose line with this number is refused so.
    pub fn at(self, line: u64) -> ScriptRefusal
        ensures { result ≡ at_line line self }
    {
        match self {
            LineRefusal::Fault(kind) => ScriptRefusal::Fault { line, kind },
            LineRefusal::NoMemory => ScriptRefusal::NoMemory,
        }
    }

    /// The refusal of a line whose path is refused so.
    pub fn of_path(refusal: PathRefusal) -> LineRefusal
        ensures { result ≡ refused_path refusal }
    {
        match refusal {
            PathRefusal::Form => LineRefusal::Fault(ScriptFaultKind::Path),
            PathRefusal::NoMemory => LineRefusal::NoMemory,
        }
    }

    /// The refusal of a line whose term is refused so.
    pub fn of_term(refusal: TermRefusal) -> LineRefusal
        ensures { result ≡ refused_term refusal }
    {
        match refusal {
            TermRefusal::Fault { .. } => LineRefusal::Fault(ScriptFaultKind::Term),
            TermRefusal::NoMemory => LineRefusal::NoMemory,
        }
    }
}
