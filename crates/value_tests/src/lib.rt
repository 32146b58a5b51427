//! Tests that compare values of Rust types, over the public calls of all crates but those of the runs: what no clause says, and each call
//! that may want memory and that no program makes, once. They stand here since a crate is proved once more where it has tests. What a
//! clause says of a call is left to that clause: worked values of its definitions stand in `proofs/GraphVectors.antt` and
//! `proofs/ReadingVectors.antt`, and the rows of `tor_rows` go through the calls that programs make.
#![tactic(auto)]

#[cfg(test)]
mod of_counting;
#[cfg(test)]
mod of_dump_read;
#[cfg(test)]
mod of_graphs;
#[cfg(test)]
mod of_keys;
#[cfg(test)]
mod of_lists;
#[cfg(test)]
mod of_one_path;
#[cfg(test)]
mod of_path_order;
#[cfg(test)]
mod of_path_table;
#[cfg(test)]
mod of_reach_counts;
#[cfg(test)]
mod of_top_givens;
#[cfg(test)]
mod of_tor_arena;
#[cfg(test)]
mod of_tor_digraph;
#[cfg(test)]
mod of_tor_io;
#[cfg(test)]
mod of_tor_sample;
