//! Tests of the generations of files and of the store: worked examples, of what no clause says.
#![tactic(auto)]

#[cfg(test)]
mod cases;
#[cfg(test)]
mod generations;
#[cfg(test)]
mod machine;
#[cfg(test)]
mod stores;
