//! The settings of a running engine, and how they are read from a text of TOML.
#![tactic(auto)]

pub mod settings;
#[cfg(test)]
mod tests;
