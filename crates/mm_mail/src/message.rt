// A message that is being typed in.
use cm_text::Name;
use ex_commands::Data;

/// A message that is being typed in.
#[derive(Drop)]
pub struct Message {
    /// The directory that is to receive it.
    pub receiver: Name,
    /// What it is about.
    pub subject: Name,
    /// The moment of its line, in seconds since 1-JAN-1970.
    pub moment: u64,
    /// What was typed so far.
    pub typed: Data,
}
