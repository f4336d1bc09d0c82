//! Tests of the EXEC's grammar and commands: worked examples of what no clause says.
#![tactic(auto)]

#[cfg(test)]
mod acts;
#[cfg(test)]
mod bytes;
#[cfg(test)]
mod graph;
#[cfg(test)]
mod keys;
#[cfg(test)]
mod places;
#[cfg(test)]
mod rules;
#[cfg(test)]
mod script;
#[cfg(test)]
mod stamps;
#[cfg(test)]
mod typed;
