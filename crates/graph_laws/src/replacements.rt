//! What a replacement in a tree leaves.
ghost use Rattle.graph_laws.specs.Laws.{AlikeTermsBindAlike, AlikeTermsMatchAlike, FarMatchesStay, FarRulesStay, NearRulesSuffice, NodesOutsideStay, OwnedOutsideStays, PositionsStayElsewhere, ReplacementsInParts, ReplacementsLeaveAlike};

/// A replacement leaves a term as it was on all levels above the one that it replaces.
pub fn replacements_leave_alike()
    ensures { ReplacementsLeaveAlike }
{}

/// A pattern matches both of two terms or neither, where they are alike on each level that it may look at.
pub fn alike_terms_match_alike()
    ensures { AlikeTermsMatchAlike }
{}

/// What a pattern binds at both is the same as well, where both stand at one path.
pub fn alike_terms_bind_alike()
    ensures { AlikeTermsBindAlike }
{}

/// A position nine or more levels above a replacement keeps its matching rule.
pub fn far_rules_stay()
    ensures { FarRulesStay }
{}

/// It keeps all that matches there, the rules of properties included, with what they bind.
pub fn far_matches_stay()
    ensures { FarMatchesStay }
{}

/// The rules above a replacement stay where those of the nearest eight positions do: so no other position above it has to be matched again.
pub fn near_rules_suffice()
    ensures { NearRulesSuffice }
{}

/// Where the rules above a replacement stay, a position that is neither above nor below it has the term that it had, and so its rule, and is entered as
/// it was.
pub fn positions_stay_elsewhere()
    ensures { PositionsStayElsewhere }
{}

/// A replacement below a position is one of the position's whole term. So where the position's first nodes, last nodes and passing stay, it is the place
/// above which `owned_outside_stays` speaks.
pub fn replacements_in_parts()
    ensures { ReplacementsInParts }
{}

/// Where the new term has the first nodes, the last nodes and the passing of the old one, and the rules above it stay, no edge is owned otherwise outside:
/// a position that is not at or below the replacement owns the same edges in both trees.
pub fn owned_outside_stays()
    ensures { OwnedOutsideStays }
{}

/// Where the rules above a replacement stay, a position that is not at or below it names the same nodes in both trees.
pub fn nodes_outside_stay()
    ensures { NodesOutsideStay }
{}
