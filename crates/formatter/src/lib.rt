// Formatting, listing and mending a text: formatter.rs of the crate evfmt; document 01, "Replacement and text", "Turned back".
// This crate has the definitions of these calls and the theorems about them: specs/Format.antt, specs/List.antt and specs/Mend.antt set out
// the whole outcome of each call. The crates formatting, listing and mending have the code.
#![tactic(auto)]

pub mod filed;
pub mod intake;
