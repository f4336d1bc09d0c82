//! Runs of `spool20` by example, over objects in memory.
#![tactic(auto)]

#[cfg(test)]
mod case;
#[cfg(test)]
mod ends;
#[cfg(test)]
mod faults;
#[cfg(test)]
mod notation;
#[cfg(test)]
mod pages;
#[cfg(test)]
mod plain;
#[cfg(test)]
mod queues;
