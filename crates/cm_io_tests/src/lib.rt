//! What tests of faults want: what fails, a sink that fails, what stands where a run is cut, and how the run ends then.
#![tactic(auto)]

mod ends;
mod event;
mod failing;
mod part_sink;
mod pieces;
mod text;
mod trace;
mod watch;

pub use ends::{closing, status_of};
pub use failing::{Failing, NOTHING, has_image};
pub use part_sink::{Part, PartSink};
pub use pieces::is_written;
pub use text::{bytes_of, push_text};
pub use trace::{Faults, Stands, Stop, stands_at};
pub use watch::{Counted, Watcher};
