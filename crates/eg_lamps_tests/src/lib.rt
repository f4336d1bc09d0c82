//! Runs of the lamps by example, over objects in memory.
#![tactic(auto)]

#[cfg(test)]
mod cut;
#[cfg(test)]
mod faults;
#[cfg(test)]
mod given;
#[cfg(test)]
mod hook;
#[cfg(test)]
mod whole;
