//! What stands on the screen, by example.
#![tactic(auto)]

#[cfg(test)]
mod commands;
#[cfg(test)]
mod faults;
#[cfg(test)]
mod laws;
#[cfg(test)]
mod limit;
#[cfg(test)]
mod notation;
#[cfg(test)]
mod screens;
#[cfg(test)]
mod sessions;
