//! The check of a store: what is wrong with it, if anything, told from its bytes.
#![tactic(auto)]

mod array_count;
mod array_rules;
mod bare;
mod children;
mod fit;
mod key_walk;
mod level_count;
mod level_rules;
mod level_runs;
mod level_walk;
mod marked_group;
mod marked_run;
mod marking;
mod owners;
mod places;
mod scan;
mod sights;
mod store_walk;
mod stray_group;
mod strays;
pub mod verdict;
