//! Whether the lines of a result meet the rules that ask of no lost path: given lines (of rule 1), path lines (2 and 3), edge lines (5 to
//! 7), why lines (8), marks and open lines (9), and counts and path lines beside those of dumps (11). Each search answers the place, from
//! 0, of the first line that breaks its rule. And what the other rules stand on: whether a walk is linked, the steps of the paths, labels
//! by their places, and the numbers of lines.
#![tactic(auto)]

mod against;
mod edges;
mod givens;
mod lending;
mod line_numbers;
mod marks;
mod paths;
mod walks;

pub use against::check_against;
pub use edges::edge_rules::{find_miscounted, find_unlisted, find_valley, list_edges};
pub use edges::labels::Labels;
pub use edges::step::Step;
pub use givens::find_unsound_given;
pub use lending::path_line_at;
pub use line_numbers::{edge_line, given_line, last_line, mark_line, path_line, why_line};
pub use marks::borne_marks::find_unborne;
pub use marks::consistency::find_useless;
pub use marks::flipping::Flips;
pub use marks::neighbours::Neighbours;
pub use marks::serving::{Cover, cover_all};
pub use paths::{find_repeated, find_unclean};
pub use walks::links::is_walk;
pub use walks::why_rules::find_unshown;
