//! The laws of the runs: what the words and the files of `tor` give, what follows for all that it writes, and what it says together with
//! the runs of `torcheck` and `torgrade`.
#![tactic(auto)]

mod laws;

pub use laws::{
    accepted_grading_law, agreement_law, any_dump_order_law, ask_run_law, faithful_law,
    grading_law, growing_law, migrate_law, one_outcome_law, one_summary_law, readable_law,
    resume_law, seen_law, self_grading_law, short_law, some_faithful_law, top_law,
};
