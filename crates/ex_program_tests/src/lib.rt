//! Runs of `exec20` by example, over objects in memory.
#![tactic(auto)]

#[cfg(test)]
mod case;
#[cfg(test)]
mod commands;
#[cfg(test)]
mod costs;
#[cfg(test)]
mod cut;
#[cfg(test)]
mod directly;
#[cfg(test)]
mod faults;
#[cfg(test)]
mod files;
#[cfg(test)]
mod generated;
#[cfg(test)]
mod given;
#[cfg(test)]
mod images;
#[cfg(test)]
mod joins;
#[cfg(test)]
mod keeping;
#[cfg(test)]
mod large;
#[cfg(test)]
mod limit;
#[cfg(test)]
mod notation;
#[cfg(test)]
mod order;
#[cfg(test)]
mod pairs;
#[cfg(test)]
mod printing;
#[cfg(test)]
mod subcommands;
#[cfg(test)]
mod taking;
#[cfg(test)]
mod whole;
#[cfg(test)]
mod words;
