//! Tests of plugins by worked examples. They stand here, since a crate with tests is proved once
//! more for them.
#![tactic(auto)]

#[cfg(test)]
mod dns64;
#[cfg(test)]
mod dns64_words;
#[cfg(test)]
mod made;
