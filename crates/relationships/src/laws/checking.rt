//! What the rules of a checker give.

ghost use Rattle.relationships.specs.Laws.Checking.{KeepingLaw, MarkingLaw, ForcedLaw, GraphRulesLaw, GraphRulesBehindLaw};

/// Where each lost path is refuted and each kept path is valley-free, exactly the right paths are
/// kept.
pub fn keeping_law()
    ensures { KeepingLaw }
{}

/// Where the marks hold, exactly the forced edges are marked so.
pub fn marking_law()
    ensures { MarkingLaw }
{}

/// No forced edge is a peering.
pub fn forced_law()
    ensures { ForcedLaw }
{}

/// What meets the rules on the graph is valid.
pub fn graph_rules_law()
    ensures { GraphRulesLaw }
{}

/// What meets the rules on the graph behind paths that are served from the start is valid behind these.
pub fn graph_rules_behind_law()
    ensures { GraphRulesBehindLaw }
{}
