//! Walks: whether their links fit, and rule 8, that each why line shows an order.

pub(crate) mod links;
pub(crate) mod pairs;
pub(crate) mod shown;
pub(crate) mod why_rules;
