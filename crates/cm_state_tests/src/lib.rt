//! Tests of recognition, of help and of sessions. Their cases are texts, and so are the grammars of their lines.
#![tactic(auto)]

#[cfg(test)]
mod cabinet;
#[cfg(test)]
mod cases;
#[cfg(test)]
mod endings;
#[cfg(test)]
mod grammars;
#[cfg(test)]
mod help;
#[cfg(test)]
mod judges;
#[cfg(test)]
mod recognition;
#[cfg(test)]
mod sessions;
