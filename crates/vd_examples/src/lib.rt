//! Examples of the rules: what they answer on each work of `tests/examples`, as equations that compute. `tools/examples/make`
//! makes the files of `specs/` and `proofs/` from those texts.
#![tactic(auto)]
