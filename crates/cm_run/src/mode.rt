// What the next key is for.
use cm_state::Prompt;

/// What the next key of a run is for.
#[derive(Clone, Copy, Debug, PartialEq, Eq)]
pub enum Mode {
    /// It edits a line.
    Line {
        /// The node of the grammar at which the line begins.
        node: u16,
        /// What the line is asked for with.
        prompt: Prompt,
        /// Whether a line that is confirmed takes a moment of the clock.
        takes_moment: bool,
    },
    /// The application takes it as it is.
    Raw,
    /// There is none: the application has ended the run.
    Ended,
}
