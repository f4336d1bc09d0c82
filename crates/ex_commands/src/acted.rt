// What came of a command.
ghost use Rattle.std.specs.Prelude.{◌≡◌};
ghost use Rattle.ex_commands.specs.Answer.{answer_by};

use cm_fields::Code;
use cm_io::Put;

/// What came of a command.
#[derive(Clone, Copy, Debug, PartialEq, Eq)]
pub enum Acted {
    /// It is done, and its reply is shown.
    Ok,
    /// It is refused: the reason is shown, and nothing changed.
    Refused(Code),
    /// It waits for its subcommands: nothing is shown, and nothing changed.
    Pending,
    /// A file is to be typed in: data mode begins.
    Data,
    /// The lines of a file are taken next: nothing is shown, and nothing changed.
    Take,
    /// The run is over.
    Logout,
    /// There is no memory for it: nothing is shown, and nothing changed.
    NoMemory,
    /// The sink failed in the midst of what is shown. The command has acted, or is refused, all the same.
    Failed,
}

/// The answer to a command whose reply was put so.
pub fn answer_by(done: Acted, put: Put) -> Acted
    ensures { result ≡ answer_by done put }
{
    match put {
        Put::Done => done,
        Put::Failed => Acted::Failed,
    }
}
