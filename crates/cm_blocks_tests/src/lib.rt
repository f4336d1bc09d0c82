//! Tests of `cm_files` and `cm_blocks`, by worked cases over a small catalogue and small grammars. The cases of a test
//! are a text with a line a case.
#![tactic(auto)]

#[cfg(test)]
mod cases;
#[cfg(test)]
mod catalogues;
#[cfg(test)]
mod chains;
#[cfg(test)]
mod chains_of_dates;
#[cfg(test)]
mod chains_of_files;
#[cfg(test)]
mod costs;
#[cfg(test)]
mod directories;
#[cfg(test)]
mod faults;
#[cfg(test)]
mod files;
#[cfg(test)]
mod grammars;
#[cfg(test)]
mod keywords;
#[cfg(test)]
mod laws;
#[cfg(test)]
mod listing;
#[cfg(test)]
mod many;
#[cfg(test)]
mod options;
#[cfg(test)]
mod patterns;
#[cfg(test)]
mod reasons;
#[cfg(test)]
mod sample;
#[cfg(test)]
mod setting;
#[cfg(test)]
mod specifications;
