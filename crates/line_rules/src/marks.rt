//! Rule 9: what the open lines of a result serve for, and which marks that bears out. An edge flips that gets the order its label does not
//! have: `flipping` notes which edges flip with which, `serving` what the open lines cover, `borne_marks` finds the first edge line whose
//! mark is not borne out, and `consistency` the first open line that doesn't serve.

pub(crate) mod batch;
pub(crate) mod borne_marks;
pub(crate) mod consistency;
pub(crate) mod flipping;
pub(crate) mod neighbours;
pub(crate) mod noted;
pub(crate) mod searching;
pub(crate) mod serving;
pub(crate) mod showing;
