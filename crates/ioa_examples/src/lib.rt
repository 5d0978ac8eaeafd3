//! What the definitions say of small values, sources and logs, computed from them: for whoever reads the definitions.
//! It has no code, and no crate stands on it.
#![tactic(auto)]
