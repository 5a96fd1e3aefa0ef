//! Where the elements of a host lie, as the contract of a function that does nothing.
#![tactic(auto)]

mod laws;

pub use laws::elements_lie_where_the_layout_has_them;
