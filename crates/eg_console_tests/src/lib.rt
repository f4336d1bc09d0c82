//! Runs of the console by example, over objects in memory.
#![tactic(auto)]

#[cfg(test)]
mod given;
#[cfg(test)]
mod whole;
