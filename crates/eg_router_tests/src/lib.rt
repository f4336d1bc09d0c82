//! Runs of the router by example, over objects in memory.
#![tactic(auto)]

#[cfg(test)]
mod configuration;
#[cfg(test)]
mod cut;
#[cfg(test)]
mod given;
#[cfg(test)]
mod hook;
#[cfg(test)]
mod whole;
