//! What commands lead to, and what they write.
ghost use Rattle.constraint_theory.specs.Systems.{ConstraintSystem, Equality, IsEquality};
ghost use Rattle.session_theory.specs.Commands.{Meaning};
ghost use Rattle.session_theory.specs.Files.{Ends};
ghost use Rattle.session_theory.specs.Laws.{AreEdits, AreSystems, CommandsKeepMomentsSound, OutputsGoOn, SessionsRefuseNothing, SpentHasCause, TreesFollowEdits};

/// Trees with constraints, edits of them, and what commands say.
pub trait Commanded {
    /// Trees.
    type Tree;

    /// Edits.
    type Edit;

    /// Names of constraints.
    type Key;

    /// What values are looked for of.
    type Unknown;

    /// Values.
    type Value;

    /// How an output ends.
    type How;

    // As of an analysis.
    ghost same: { Equality Self.Key Self.Unknown };

    ghost IsSystemOf: { Self.Tree → ConstraintSystem Self.Key Self.Unknown Self.Value → Type 0 };

    ghost tells: { IsEquality same };

    ghost systems: { AreSystems same IsSystemOf };

    // What commands say, and how outputs end.
    ghost says: { Meaning Self.Tree Self.Edit Self.Key };

    ghost ends: { Ends Self.How };

    ghost edits: { AreEdits same IsSystemOf says };
}

/// Commands keep moments sound.
pub fn commands_keep_moments_sound<C: Commanded>()
    ensures { CommandsKeepMomentsSound C.same C.IsSystemOf C.says }
{}

/// The present tree follows from the edits alone: neither visits nor the order of the queue enter it.
pub fn trees_follow_edits<C: Commanded>()
    ensures { TreesFollowEdits C.same C.IsSystemOf C.says }
{}

/// What some commands write, and then an output of the others, is an output of all.
pub fn outputs_go_on<C: Commanded>()
    ensures { OutputsGoOn C.same C.IsSystemOf C.says C.ends }
{}

/// An output is that of all commands, or a budget was named that is below the bound of the tree that is present at the command
/// that stopped.
pub fn spent_has_cause<C: Commanded>()
    ensures { SpentHasCause C.same C.IsSystemOf C.says C.ends }
{}

/// The output of a session is no refusal: that is only said of files.
pub fn sessions_refuse_nothing<C: Commanded>()
    ensures { SessionsRefuseNothing C.same C.IsSystemOf C.says C.ends }
{}
