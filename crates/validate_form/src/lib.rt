// First pass over the first twelve bytes of a file: FORM, its length and the kind of file are validated. The answer is the kind, or the fault; nothing is
// written.
#![tactic(auto)]

pub mod form;
