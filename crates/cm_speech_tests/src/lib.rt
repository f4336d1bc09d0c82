//! Tests of the fields of a command language. The cases of a test are a text with a line a case: the number of a hook
//! and what is typed, and what is wanted, have a tilde between them.
#![tactic(auto)]

#[cfg(test)]
mod answers;
#[cfg(test)]
mod cases;
#[cfg(test)]
mod rules;
#[cfg(test)]
mod shown;
