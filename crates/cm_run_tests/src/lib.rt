//! Tests of the engine by small programs.
#![tactic(auto)]

#[cfg(test)]
mod grammars;
#[cfg(test)]
mod handed;
mod panel;
mod tally;
