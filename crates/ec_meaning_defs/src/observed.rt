//! What is seen of a run, in `specs/`: what was said, printed and left, how it ended; a run that was made against what a
//! program means; and what is promised of a call that reads a program and runs it. It has no code.
#![tactic(auto)]
