//! Laws of a run.
ghost use Rattle.std.specs.Prelude.{◌≡◌, ◌≢◌, ◌≤◌, ◌^◌, ◌∷◌, ◌++◌, ℕ, Bool, List, length, Some, IsTrue};
ghost use Rattle.cm_io.specs.declared.status.Status.{Status};
ghost use Rattle.cm_io.specs.declared.status.Status.TheVariants as status;
ghost use Rattle.cm_run.specs.Event.{Event, Memory, keys_of};
ghost use Rattle.ex_store.specs.State.{State};
ghost use Rattle.ex_take.specs.ExecState.{ExecState};
ghost use Rattle.ex_system.specs.Disk.{Disk};
ghost use Rattle.ex_system.specs.Form.{Form};
ghost use Rattle.ex_system.specs.Start.{InputCause, IsRun};
ghost use Rattle.ex_run.specs.Course.{Past};
ghost use Rattle.ex_run.specs.Scene.{Scene, telling};
ghost use Rattle.ex_program.specs.ExecRun.{exec_over, exec_trace};
ghost use Rattle.ex_program.specs.GeneratedKeys.{generated_keys};
ghost use Rattle.ex_program.specs.Summary.{generated_trace, summary_of};
ghost use Rattle.ex_program.specs.TakesMemory.{LastTakesMemory};
ghost use Rattle.ex_program.specs.declared.progress.TheConstants.{GENERATED_KEYS, GENERATED_LINES};
ghost use Rattle.ex_program.specs.declared.words.TheConstants.{MOST_DIGITS};

use cm_io::{Clock, Source};

/// What one run saved the next reads: a run that is to begin from the file that another run has written, as that run
/// left it, begins in the state that the other left; and it is refused in none of the ways in which a file is. So it is
/// whatever the status of the other, but where the host failed.
pub fn what_is_saved_is_read_again<K: Source, C: Clock>()
    ensures begins { (form next : Form) → (a b c d : Scene) → (before now later last : Disk) → (result other : Status)
        → (run : Past (telling K.tells C.tells) exec_over form a b before now result)
        → (again : Past (telling K.tells C.tells) exec_over next c d later last other)
        → result ≢ status.HostFault → IsTrue before.tells → IsTrue later.tells
        → next.input ≡ Some form.out → later.files form.out ≡ now.files form.out
        → again.start ≡ run.left.interpreter.state }
    ensures taken { (form : Form) → (a b : Scene) → (before now later : Disk) → (result other : Status)
        → Past (telling K.tells C.tells) exec_over form a b before now result
        → result ≢ status.HostFault → IsTrue before.tells → IsTrue later.tells
        → later.files form.out ≡ now.files form.out → InputCause later (Some form.out) other → IsRun other }
{}

/// Past the first prompt memory runs out at two kinds of keys alone: control-Z, 26, which writes a file that is typed
/// in; and a key that finishes a line of a command that takes memory: APPEND, BUILD, COPY, COPY TTY:, DEFINE with a
/// directory, PRINT, RENAME, or TAKE with the lines of the files that it takes. Of a BUILD that waits for subcommands
/// it is the line that ends them.
pub fn memory_is_wanting_where_a_command_takes_it<K: Source, C: Clock>()
    // In the trace of a run, also of a generated one, memory is asked for at such a key, the last taken by then.
    ensures trace { (logging : Bool) → (start : State) → (moments keys : List ℕ) → (done rest : List (Event ExecState))
        → done ++ Memory ∷ rest ≡ exec_trace logging start moments keys
        → LastTakesMemory start moments (keys_of done) }
    // So a run over keys is NoMemory past the first prompt only where the last key that it took is such a one.
    ensures status { (form : Form) → (a b : Scene) → (before now : Disk)
        → (run : Past (telling K.tells C.tells) exec_over form a b before now status.NoMemory)
        → IsTrue K.tells → IsTrue C.tells
        → (taken : List ℕ) × (taken ++ b.keys ≡ a.keys) × LastTakesMemory run.start a.moments taken }
{}

/// A generated run takes all keys of its lines, in their order, and its summary counts them all: no line of it is read
/// as LOGOUT, nor does one take a command file.
pub fn a_generated_run_takes_all_its_keys()
    ensures keys { (lines : ℕ) → lines ≤ GENERATED_LINES → keys_of (generated_trace lines) ≡ generated_keys lines }
    ensures count { (lines : ℕ) → lines ≤ GENERATED_LINES
        → (summary_of lines).keys ≡ length (generated_keys lines) }
{}

/// The numbers of a generated run: its most lines, the most digits of a number of lines, and a number of keys that none
/// has.
pub fn these_are_the_numbers_of_a_generated_run()
    ensures lines { GENERATED_LINES ≡ 100000 }
    ensures digits { MOST_DIGITS ≡ 6 }
    ensures keys { GENERATED_KEYS ≡ 2 ^ 24 }
{}
