//! What sound programs are: resolved programs that are never stuck, by the sorts of their values. The definitions are in
//! `specs/`; `ec_sound_run_laws` has what holds of them.
#![tactic(auto)]
