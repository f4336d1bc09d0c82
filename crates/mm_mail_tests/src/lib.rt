//! Runs of `mm20` by example, over objects in memory.
#![tactic(auto)]

#[cfg(test)]
mod case;
#[cfg(test)]
mod creates;
#[cfg(test)]
mod ends;
#[cfg(test)]
mod faults;
#[cfg(test)]
mod given;
#[cfg(test)]
mod lines;
#[cfg(test)]
mod mailboxes;
#[cfg(test)]
mod notation;
#[cfg(test)]
mod numbers;
#[cfg(test)]
mod rules;
#[cfg(test)]
mod sends;
#[cfg(test)]
mod sessions;
