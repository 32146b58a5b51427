//! Rules 5 to 7: the edge lines are the edges of the paths, labels serve the kept paths and the givens, and supports are right.

pub(crate) mod edge_rules;
pub(crate) mod given_labels;
pub(crate) mod labels;
pub(crate) mod step;
pub(crate) mod supports;
pub(crate) mod valleys;
