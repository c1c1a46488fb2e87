// A policy as text: policy sheets (document 02, vi). The crate evfmt has no such text. This crate has the definitions of a sheet, of its
// meaning and of both calls, and the theorems about them (specs/). The calls are in the crates sheet_reading and sheet_writing.
#![tactic(auto)]
