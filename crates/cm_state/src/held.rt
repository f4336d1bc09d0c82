// What a session holds of lines and texts.
ghost use Rattle.std.specs.Prelude.{◌≡◌, ◌≤◌, None, length, if◌then◌else◌};
ghost use Rattle.std.specs.Str.{IsAscii};
ghost use Rattle.cm_text.specs.Text.{IsLine, finished};
ghost use Rattle.cm_blocks.specs.Parse.{open_at};
ghost use Rattle.cm_state.specs.Edit.{before_fault};

use crate::recall::Recall;
use cm_blocks::{Ending, Open};
use cm_line::Line;
use cm_text::TEXT_LIMIT;

// The text of a line: with the CR that finished it, where one did.
#[tactic(auto, using(cm_text::proofs::Ascii::line_is_ascii))]
pub(crate) fn text_of(line: &Line, is_finished: bool) -> &[u8]
    ensures text { result.now ≡ (if is_finished then finished line.now else line.now) }
    ensures line { IsLine line.now }
    ensures ascii { IsAscii result.now }
    ensures short { length result.now ≤ TEXT_LIMIT }
{
    let bytes = line.bytes();
    if is_finished { line.finished() } else { bytes }
}

// Holds of a refused line the bytes before its faulty field, and of any other nothing.
pub(crate) fn hold_before_fault(is_finished: bool, line: &Line, ending: Ending, recall: &mut Recall)
    ensures { recall.new ≡ (if is_finished then before_fault line.now ending else None) }
{
    match ending {
        Ending::Fault(fault) if is_finished => recall.hold(line, usize::from(fault.at)),
        _ => recall.forget(),
    }
}

// The start of a parse at a node.
pub(crate) fn open_at(node: u16) -> Ending
    ensures { result ≡ open_at node 0 }
{
    Ending::Open(Open {
        node,
        block: Some(0),
        at: 0,
    })
}
