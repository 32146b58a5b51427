//! The neighbours of one AS, and the providers above them, as a picture: which they are, where their boxes and lines stand on a page, and
//! the text of the picture as SVG.
#![tactic(auto)]

mod drawing;
mod generation;
mod group;
mod laws;
mod neighbours;
mod page;
mod printing;
mod standings;
mod tower;

pub use drawing::{Band, BandPart, BoxEntry, Drawing, Item, Post, RisingLine, draw_neighbours};
pub use group::{Group, Neighbour, NeighbourCounts, Tally};
pub use laws::picture_law;
pub use neighbours::sorted_neighbours;
pub use page::{PageLine, Rect, Slant, Spot};
pub use printing::svg_of;
