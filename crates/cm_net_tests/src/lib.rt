//! Tests of internet addresses. The cases of a test are a text with a line a case: what goes in, and what is wanted,
//! have a bar between them. Examples are those of RFC 4291, 2.2 and 2.3, and of RFC 5952.
#![tactic(auto)]

#[cfg(test)]
mod addresses;
#[cfg(test)]
mod cases;
#[cfg(test)]
mod macs;
#[cfg(test)]
mod prefixes;
#[cfg(test)]
mod written;
