//! Embedded statements with their hosts as places, or what is refused of hosts and cursors.
#![tactic(auto)]

mod binding;
mod counting;
mod cursors;
mod faults;
mod indicators;
mod known;
mod least;
mod listed;
mod lists;
mod numbers;
mod places;
mod scene;
mod sending;
mod statements;
mod tallies;
mod texts;
mod values;
mod walk;

pub use binding::Binder;
