//! Runs of `batch20` by example, over objects in memory.
#![tactic(auto)]

#[cfg(test)]
mod case;
#[cfg(test)]
mod controls;
#[cfg(test)]
mod creates;
#[cfg(test)]
mod ends;
#[cfg(test)]
mod faults;
#[cfg(test)]
mod files;
#[cfg(test)]
mod given;
#[cfg(test)]
mod memory;
#[cfg(test)]
mod notation;
#[cfg(test)]
mod orders;
