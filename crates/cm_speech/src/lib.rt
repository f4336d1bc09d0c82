//! What a command language says of its own fields: addresses, prefixes, and names of lists that are told at run time.
#![tactic(auto)]

mod address;
mod among;
pub mod laws;
mod list;
mod rules;

pub use rules::{
    FIRST_LIST_HOOK, IPV4_HOOK, IPV4_PREFIX_HOOK, IPV6_HOOK, IPV6_PREFIX_HOOK, MAC_HOOK,
    SpeechRules,
};
