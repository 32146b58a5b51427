//! What the words of a command line ask for.
#![tactic(auto)]

mod as_lists;
mod as_words;
mod check_settings;
mod command;
mod entries;
mod found;
mod grade_command;
mod grade_settings;
mod job;
mod laws;
mod leak_command;
mod leak_settings;
mod links;
mod matching;
mod name;
mod rank_command;
mod rank_settings;
mod refused;
mod settings;
mod task;
mod values;
mod view_command;
mod view_settings;
mod why_command;
mod why_settings;
mod words;

pub use as_lists::{as_list, as_list_law};
pub use check_settings::{CheckSettings, check_settings_of};
pub use grade_settings::{GradeSettings, grade_settings_of};
pub use job::Job;
pub use laws::bounds_law;
pub use leak_settings::{LeakSettings, leak_settings_of};
pub use name::Name;
pub use rank_settings::{RankSettings, RankTask, rank_settings_of};
pub use refused::WordsRefused;
pub use settings::{Settings, settings_of};
pub use task::{Counted, Made};
pub use view_settings::{ViewSettings, view_settings_of};
pub use why_settings::{Asked, WhySettings, why_settings_of};
pub use words::words_of;
