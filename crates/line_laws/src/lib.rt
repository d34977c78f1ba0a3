//! The rules on the lines of the texts, in their order. No code that runs.
#![tactic(auto)]

ghost use Rattle.line_laws.specs.EventRules.{EventRulesAreInOrder};
ghost use Rattle.line_laws.specs.NetworkRules.{NetworkRulesAreInOrder};

/// A line of an event text is refused by the first rule that it breaks, in a list of rules, and is an
/// event where it breaks none of them.
pub fn event_rules_are_in_order()
    ensures { EventRulesAreInOrder }
{}

/// A line of a network text is refused by the first rule that it breaks behind the rows before it, in a
/// list of rules, and is a row where it breaks none of them.
pub fn network_rules_are_in_order()
    ensures { NetworkRulesAreInOrder }
{}
