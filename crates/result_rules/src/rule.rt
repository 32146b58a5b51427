//! The rules on the file alone.
ghost use Rattle.std.specs.Prelude.{◌≡◌};
ghost use Rattle.result_rules.specs.Rules.{rule_number};

/// The rules about the file alone, in the order in which they are tried.
#[derive(Clone, Copy)]
pub enum Rule {
    /// The ratio is at most 1000000, and each given names two different ASes, and not the two of an earlier one.
    HeadSound,
    /// Each path is clean and was seen, and there are not too many paths and numbers.
    PathsCleaned,
    /// No path stands twice.
    PathsDistinct,
    /// The walk of each lost path refutes.
    LostRefuted,
    /// The edge lines are the edges of the paths.
    EdgesListed,
    /// Each kept path is valley-free under the labels, and these say what the givens say.
    LabelsServe,
    /// Each support is right.
    SupportCounted,
    /// Each why line shows an order.
    OrdersShown,
    /// Each mark is borne out, and each open line serves.
    MarksBorneOut,
    /// The last line is right.
    TotalsRight,
}

impl Rule {
    /// The number that a verdict names.
    pub fn number(self) -> u8
        ensures { result ≡ rule_number self }
    {
        match self {
            Rule::HeadSound => 1,
            Rule::PathsCleaned => 2,
            Rule::PathsDistinct => 3,
            Rule::LostRefuted => 4,
            Rule::EdgesListed => 5,
            Rule::LabelsServe => 6,
            Rule::SupportCounted => 7,
            Rule::OrdersShown => 8,
            Rule::MarksBorneOut => 9,
            Rule::TotalsRight => 10,
        }
    }
}
