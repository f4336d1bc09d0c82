// A file that is being typed in.
use ex_commands::Data;
use ex_store::Place;

/// A file that is being typed in.
#[derive(Drop)]
pub struct Typing {
    /// Where it is to stand.
    pub to: Place,
    /// The moment of its line.
    pub moment: u64,
    /// What was typed so far.
    pub typed: Data,
}
