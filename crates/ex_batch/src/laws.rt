//! Laws of control files. Each is a function that does nothing, whose contract is the law.
ghost use Rattle.std.specs.Prelude.{◌≡◌, ◌≤◌, ◌∷◌, ℕ, Bool, List, [], true, false, Option, None, Some, codes, length, map};
ghost use Rattle.std.specs.List.{list_any};
ghost use Rattle.cm_text.specs.Text.{ends_in_hyphen, finished};
ghost use Rattle.cm_fields.specs.declared.code.Code.{Code};
ghost use Rattle.cm_fields.specs.declared.code.Code.TheVariants.{BadLine};
ghost use Rattle.cm_blocks.specs.KeptParse.{cost};
ghost use Rattle.cm_blocks.specs.declared.field.Ending.TheVariants as endings;
ghost use Rattle.cm_blocks.specs.declared.field.Fault.{Fault};
ghost use Rattle.cm_state.specs.SessionState.{SessionState};
ghost use Rattle.cm_run.specs.Event.{Trials, state_after};
ghost use Rattle.cm_run.specs.SingleLine.{handed_trace};
ghost use Rattle.cm_run.specs.Semantics.{setting_of};
ghost use Rattle.cm_run.specs.Obey.{left_by};
ghost use Rattle.cm_run.specs.Trace.{file_session, line_trace, node_of};
ghost use Rattle.ex_commands.specs.Act.{act_of};
ghost use Rattle.ex_commands.specs.declared.acted.Acted.TheVariants as answers;
ghost use Rattle.ex_commands.specs.declared.command.Command.{Command};
ghost use Rattle.ex_store.specs.State.{State};
ghost use Rattle.ex_take.specs.Exec.{acts, exec_semantics, stopped};
ghost use Rattle.ex_take.specs.ExecState.{ExecState, exec_start};
ghost use Rattle.ex_take.specs.Interpreter.{command_at};
ghost use Rattle.ex_take.specs.Taking.{RestsUnlessEnded, is_at_rest};
ghost use Rattle.ex_batch.specs.Batch.{batch_from, batch_of, line_step, text_trace};
ghost use Rattle.ex_batch.specs.Control.{Bad, Condition, Exec, Goto, Label, Nothing, Plain, control_of, is_parsable};
ghost use Rattle.ex_batch.specs.Job.{bar_of, job_effects, job_semantics, order_effects};
ghost use Rattle.ex_batch.specs.LineCount.{used_in};
ghost use Rattle.ex_batch.specs.TypedRuns.{AreAccepted, ComesTo, RunsAlike, in_file, typed_lines};
ghost use Rattle.ex_batch.specs.declared.batch.TheConstants.{CONTROL_LINES};
ghost use Rattle.ex_batch.specs.declared.step.Next.TheVariants.{Line};

use ex_take::laws as refused_acts;

/// What nine lines of a control file are.
#[tactic(auto, unfolding(crate::specs::Control::control_of, crate::specs::Control::order_of, crate::specs::Control::is_label_name, crate::specs::Control::if_error, crate::specs::Control::if_no_error, crate::specs::Control::if_word, crate::specs::Control::goto_word, crate::specs::Control::colons, cm_text::specs::Case::begins_with, cm_text::specs::Case::equals, cm_text::specs::Bytes::is_word))]
pub fn these_are_the_lines()
    ensures empty { control_of [] ≡ Nothing }
    ensures remark { control_of (codes "! @LOG") ≡ Nothing }
    ensures error { control_of (codes "@if (error) @GOTO A") ≡ Condition true (Goto (codes "A")) }
    ensures no_error { control_of (codes "@IF (NOERROR) @LOG") ≡ Condition false (Exec (codes "LOG")) }
    ensures two { control_of (codes "@IF (ERROR) @IF (ERROR) @LOG") ≡ Condition true Bad }
    ensures label { control_of (codes "Skip-1::") ≡ Label (codes "Skip-1") }
    ensures goto { control_of (codes "@GOTO A") ≡ Plain (Goto (codes "A")) }
    ensures exec { control_of (codes "@GOTO") ≡ Plain (Exec (codes "GOTO")) }
    ensures bad { control_of (codes "LOG") ≡ Plain Bad }
{}

/// A run uses at most 10,000 lines.
pub fn at_most_so_many_lines_are_used()
    ensures number { CONTROL_LINES ≡ 10000 }
    ensures few { (lines : List (List ℕ)) → (moments : List ℕ) → (at : ExecState)
        → length (used_in lines moments at) ≤ CONTROL_LINES }
{}

/// A line of the EXEC's in a control file that is not refused does what the same line does where it is typed: where
/// nothing is left to be done, and its parse is done and commands what may be there, what happens is that of a
/// confirmed line, with the lines of the command files that it takes.
pub fn a_line_does_what_a_typed_one_does()
    ensures { (at : ExecState) → (text : List ℕ) → (moment : ℕ) → is_at_rest at ≡ true
        → (file_session job_semantics at text).ending ≡ endings.Done
        → bar_of (command_at at.interpreter (file_session job_semantics at text)) ≡ None
        → handed_trace job_semantics moment at text
        ≡ Trials (cost (setting_of exec_semantics at) (node_of (exec_semantics.mode_of at)) [] (finished text))
        ∷ line_trace exec_semantics at (file_session exec_semantics at text) moment }
{}

/// A control file of the EXEC's lines alone, none of which is refused, does what the same lines do where they are
/// typed one after the other. Each line is shown before it is done. All else that happens is, event by event, what
/// happens of the typed lines: so the same state is left, and the same moments are taken and trials counted. The run
/// ends after the last line, or at LOGOUT.
pub fn a_control_file_does_what_typed_lines_do()
    ensures { (texts : List (List ℕ)) → (moments : List ℕ) → (at : ExecState) → is_at_rest at ≡ true → at.stop ≡ None
        → length texts ≤ CONTROL_LINES → AreAccepted moments at texts
        → ComesTo moments at (typed_lines moments at texts) (batch_of (map in_file texts) moments at) }
{}

/// So it does what exec20 does over the keys of the same lines, each ended by a carriage return, and none by a hyphen,
/// which would continue it. The run over these keys, with a log or without, leaves the same state and takes as
/// many moments. It shows the prompt before each line, the line as it is echoed, and then the outcome of the line,
/// where the control file shows the line, and then the same. After the last line it shows the next prompt, unless
/// LOGOUT has acted. The trials alone are others: of keys they are counted key by key.
pub fn a_control_file_does_what_the_keys_of_its_lines_do()
    ensures { (texts : List (List ℕ)) → (moments : List ℕ) → (at : ExecState) → (logging : Bool)
        → is_at_rest at ≡ true → at.stop ≡ None → length texts ≤ CONTROL_LINES → AreAccepted moments at texts
        → list_any ends_in_hyphen texts ≡ false
        → RunsAlike moments at logging texts (batch_of (map in_file texts) moments at) }
{}

/// Nothing is left to be done between two lines of a control file: no command waits, no file is typed in, and no
/// command file is open. So it is where a run begins. A line that begins so leaves nothing, unless LOGOUT has acted,
/// after which no line is used; and so it is after any number of lines.
pub fn nothing_is_left_between_two_lines()
    ensures start { (start : State) → is_at_rest (exec_start start) ≡ true }
    ensures line { (lines : List (List ℕ)) → (place : ℕ) → (moments : List ℕ) → (at : ExecState)
        → (found : Option (List ℕ)) → is_at_rest at ≡ true
        → RestsUnlessEnded (state_after at (line_step lines place moments at found).events) }
    ensures next { (lines : List (List ℕ)) → (place : ℕ) → (moments : List ℕ) → (at : ExecState)
        → (found : Option (List ℕ)) → (next : ℕ) → is_at_rest at ≡ true
        → (line_step lines place moments at found).next ≡ Line next
        → is_at_rest (state_after at (line_step lines place moments at found).events) ≡ true }
    ensures run { (lines : List (List ℕ)) → (most : ℕ) → (moments : List ℕ) → (at : ExecState) → is_at_rest at ≡ true
        → RestsUnlessEnded (state_after at (batch_from lines most moments at (Line 0)).events) }
{}

/// A refused line of the EXEC's changes no directory and no file: it leaves what was there before it, but that it is
/// counted, and why is remembered. So does one that cannot be parsed, one whose parse ends in a fault, one whose
/// command may not be in a control file, and one whose command is refused itself. Of a TAKE that is refused later, the
/// lines before have acted.
pub fn a_refused_line_changes_nothing()
    ensures files { (at : ExecState) → (code : Code) → (stopped code at).interpreter.state ≡ at.interpreter.state }
    ensures text { (at : ExecState) → (text : List ℕ) → (moment : ℕ) → is_parsable text ≡ false
        → state_after at (text_trace moment at text) ≡ stopped BadLine at }
    ensures parse { (at : ExecState) → (session : SessionState) → (moment : ℕ) → (fault : Fault)
        → left_by at (order_effects at session moment (endings.Fault fault)) ≡ stopped fault.code at }
    ensures barred { (at : ExecState) → (moment : ℕ) → (command : Command) → (code : Code) → bar_of command ≡ Some code
        → left_by at (job_effects at moment command) ≡ stopped code at }
    ensures act { (at : ExecState) → (moment : ℕ) → (command : Command) → (code : Code)
        → (act_of command moment at.interpreter.state).answer ≡ answers.Refused code
        → left_by at (acts at moment command) ≡ stopped code at }
{
    refused_acts::a_refused_line_changes_nothing();
}
