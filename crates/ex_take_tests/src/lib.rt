//! Tests of command files that are taken without keys, by `take` and by the `run_lines` of the engine.
#![tactic(auto)]

#[cfg(test)]
mod case;
#[cfg(test)]
mod faults;
#[cfg(test)]
mod files;
#[cfg(test)]
mod taking;
