// What is shown where a run does not begin.
ghost use Rattle.std.specs.Prelude.{◌≡◌, ◌++◌, []};
ghost use Rattle.cm_text.specs.ScreenBytes.{end_of_line};
ghost use Rattle.ex_system.specs.Messages.{message};
ghost use Rattle.ex_system.specs.Trying.{Tried};

use crate::message::show_message;
use cm_io::{Sink, Status, put_line};

/// Shows the message of a status that comes before anything else is shown.
pub fn refuse<S: Sink>(status: Status, screen: &mut S) -> Status
    ensures status { result ≡ status }
    ensures shown { Tried (S.contents screen.old) (S.contents screen.new)
        (S.faults screen.old) (S.faults screen.new) [] (message status) }
{
    show_message(status, screen);
    status
}

/// Shows a text and the end of its line. A screen that fails here changes nothing.
pub fn show_line<S: Sink>(text: &[u8], screen: &mut S)
    ensures { Tried (S.contents screen.old) (S.contents screen.new)
        (S.faults screen.old) (S.faults screen.new) [] (text.now ++ end_of_line) }
{
    put_line(text, screen);
}

/// Shows what words a program takes, where it was given others. The text is each program's own.
pub fn refuse_usage<S: Sink>(usage: &str, screen: &mut S) -> Status
    ensures status { result ≡ Status.Usage }
    ensures shown { Tried (S.contents screen.old) (S.contents screen.new)
        (S.faults screen.old) (S.faults screen.new) [] (usage.now ++ end_of_line) }
{
    show_line(usage.as_bytes(), screen);
    Status::Usage
}
