//! Tests of the grammars of command languages. The cases of a test are a text with a line a case: what goes in, and
//! what is wanted, have a tilde between them.
#![tactic(auto)]

#[cfg(test)]
mod cases;
#[cfg(test)]
mod graphs;
