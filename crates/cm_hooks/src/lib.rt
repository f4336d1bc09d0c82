//! Hooks: what a program says of its own kinds of field. A grammar names each by its id, and the program's rules judge
//! an atom, complete one, and give the help text.
#![tactic(auto)]

mod among;
mod answer;
mod callbacks;
mod choices;
mod field;
mod hook;
mod hooks;
pub mod laws;
mod rule_set;
mod rules;
mod stored;

pub use among::{completion_among, verdict_among};
pub use answer::{Answer, Tail};
pub use callbacks::{Callbacks, Lent};
pub use choices::Choices;
pub use field::hook_field;
pub use hook::Hook;
pub use hooks::{HOOKS_LIMIT, Hooks, Verdict};
pub use rule_set::RuleSet;
pub use rules::{NoRules, Rules};
pub use stored::StoredRules;
