//! Several programs over one set of connections: the sources in an input, whose request is answered next, and what is
//! shown. No code.
#![tactic(auto)]
