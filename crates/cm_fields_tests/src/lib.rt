//! Tests of the crates below the grammar, from texts to hooks. The cases of a test are a text with a line a case: what
//! goes in, and what is wanted, are between bars.
#![tactic(auto)]

#[cfg(test)]
mod cases;
#[cfg(test)]
mod dates;
#[cfg(test)]
mod fields;
#[cfg(test)]
mod halving;
#[cfg(test)]
mod hooks;
#[cfg(test)]
mod lines;
#[cfg(test)]
mod long_quotes;
#[cfg(test)]
mod names;
#[cfg(test)]
mod numerals;
#[cfg(test)]
mod outside;
#[cfg(test)]
mod ports;
#[cfg(test)]
mod reasons;
#[cfg(test)]
mod runs;
#[cfg(test)]
mod std_log;
#[cfg(test)]
mod stored;
#[cfg(test)]
mod tables;
#[cfg(test)]
mod texts;
#[cfg(test)]
mod walk;
