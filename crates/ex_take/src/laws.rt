//! Laws of the EXEC with its command files. Each is a function that does nothing, whose contract is the law.
ghost use Rattle.std.specs.Prelude.{◌≡◌, ◌≢◌, ◌<◌, ℕ, List, Err, Some, true, false};
ghost use Rattle.cm_line.specs.Keys.{class_at};
ghost use Rattle.cm_line.specs.declared.key.KeyClass.TheVariants as classes;
ghost use Rattle.cm_fields.specs.declared.code.Code.{Code};
ghost use Rattle.cm_blocks.specs.declared.field.Fault.{Fault};
ghost use Rattle.cm_state.specs.SessionState.{SessionState, line_before};
ghost use Rattle.cm_state.specs.declared.turn.Turn.TheVariants as turn;
ghost use Rattle.cm_run.specs.Cut.{Traces};
ghost use Rattle.cm_run.specs.Event.{Event};
ghost use Rattle.cm_run.specs.Idle.{turn_at};
ghost use Rattle.cm_run.specs.Keeping.{IsLineKeeping, is_line};
ghost use Rattle.cm_run.specs.Obey.{left_by};
ghost use Rattle.cm_run.specs.Observation.{Observation};
ghost use Rattle.cm_run.specs.Trace.{RunState, file_session, line_start, next_line, run_state, step};
ghost use Rattle.cm_run.specs.declared.engine.TheConstants.{FILE_LINES};
ghost use Rattle.cm_run.specs.declared.stop.Stop.{Stop};
ghost use Rattle.ex_store.specs.State.{State};
ghost use Rattle.ex_commands.specs.Act.{act_of};
ghost use Rattle.ex_commands.specs.declared.acted.Acted.TheVariants as answers;
ghost use Rattle.ex_commands.specs.declared.command.Command.{Command};
ghost use Rattle.ex_commands.specs.declared.command.Command.TheVariants as commands;
ghost use Rattle.ex_take.specs.Interpreter.{completion, completion_answer, effect_of, pending_complete, raw_answer, raw_by};
ghost use Rattle.ex_take.specs.InterpreterState.{InterpreterState};
ghost use Rattle.ex_take.specs.Exec.{acts, counted, exec_semantics, file_line_effects, innermost, is_over, line_effects, looks_ahead, next_fault, settles, stopped, unwaiting};
ghost use Rattle.ex_take.specs.ExecState.{ExecState, exec_start};
ghost use Rattle.ex_take.specs.Logout.{ConfirmsLogout, after_lines, moment_of, session_at};
ghost use Rattle.ex_take.specs.Quiet.{IsQuiet, IsQuietUnlessEnded};
ghost use Rattle.ex_take.specs.Refusals.{file_line_code, line_code, stopped_by, unwritten};
ghost use Rattle.ex_take.specs.Reply.{StandsAsShown};
ghost use Rattle.ex_take.specs.declared.pending.Pending.{Pending};
ghost use Rattle.ex_take.specs.declared.exec.TheConstants.{MOST_FILES};

/// Only two keys change directories and files: the End key that confirms a line, with the lines of the command files
/// that it takes, and control-Z, 26, which writes a file that is typed in.
pub fn only_confirmation_and_control_z_change_files()
    ensures line { (at : RunState ExecState) → (key : ℕ) → is_line (exec_semantics.mode_of at.state) ≡ true
        → turn_at exec_semantics at key ≢ turn.Confirmed
        → (step exec_semantics at key).state.interpreter.state ≡ at.state.interpreter.state }
    ensures confirmed { (at : RunState ExecState) → (key : ℕ) → turn_at exec_semantics at key ≡ turn.Confirmed
        → class_at (line_before at.session) key ≡ classes.End }
    ensures typing { (at : RunState ExecState) → (key : ℕ) → is_line (exec_semantics.mode_of at.state) ≡ false
        → key ≢ 26
        → (step exec_semantics at key).state.interpreter.state ≡ at.state.interpreter.state }
{}

/// Of the keys of a file that is typed in control-Z, 26, alone writes it. Each other leaves directories and files as
/// they are.
pub fn only_control_z_writes_a_typed_file()
    ensures { (interpreter : InterpreterState) → (key : ℕ) → key ≢ 26
        → (left_by interpreter (raw_by interpreter key interpreter.typing)).state ≡ interpreter.state }
{}

/// Only LOGOUT, whose other name is KJOB, ends the run: a key ends it only where it confirms a line that commands
/// LOGOUT, or one that takes command files of which a line does, each as it is parsed under the state that it finds. So
/// each act that ends it is that of LOGOUT: of those of main lines, of those after the last subcommand of a command
/// that waited, and of those of the keys of a file that is typed in, which end it never.
pub fn only_logout_ends_the_run()
    ensures key { (at : RunState ExecState) → (key : ℕ) → IsQuiet at.state → at.state.interpreter.ended ≡ false
        → (step exec_semantics at key).state.interpreter.ended ≡ true → ConfirmsLogout at key }
    ensures line { (at : RunState ExecState) → (key : ℕ) → at.state.interpreter.ended ≡ false
        → (step exec_semantics at key).state.interpreter.ended ≡ true
        → is_line (exec_semantics.mode_of at.state) ≡ true }
    ensures confirmed { (at : RunState ExecState) → (key : ℕ) → at.state.interpreter.ended ≡ false
        → is_line (exec_semantics.mode_of at.state) ≡ true → turn_at exec_semantics at key ≢ turn.Confirmed
        → (step exec_semantics at key).state.interpreter.ended ≡ false }
    ensures main { (interpreter : InterpreterState) → (moment : ℕ) → (command : Command) → interpreter.ended ≡ false
        → (effect_of interpreter moment command).state.ended ≡ true → command ≡ commands.Logout }
    ensures waiting { (interpreter : InterpreterState) → (pending : Pending) → interpreter.ended ≡ false
        → (left_by (record interpreter { pending = Some pending }) (completion interpreter pending)).ended ≡ true
        → pending.command ≡ commands.Logout }
    ensures typing { (interpreter : InterpreterState) → (key : ℕ)
        → (left_by interpreter (raw_by interpreter key interpreter.typing)).ended ≡ interpreter.ended }
{}

/// What the EXEC shows leaves the screen at the start of a row wherever a line begins: each reply is nothing, or ends
/// with a line feed, also those at the lines of command files, and so do control-Z and control-C with which the typing
/// of a file ends.
pub fn the_exec_keeps_its_lines()
    ensures { IsLineKeeping exec_semantics }
{}

/// A line that is refused changes no directory and no file, and each way of it leaves exactly this. A typed one that is
/// refused by its parse is counted, takes no moment, and the next line is of the same kind; one that control-C gives up
/// drops the command that waits, and no more. Each other is counted, drops the command that waits, as a BUILD, and
/// closes the files that are open: a typed line, or one of subcommands, the empty one too, that is refused by what it
/// commands; a line of a command file, refused by its parse, before it is parsed or by what it commands; and a command
/// that waits, and is refused at the end of its file. No line is taken after it, so that this is all that the whole
/// step leaves. A file that is typed in, and refused at control-Z, is dropped and counted, and no more.
pub fn a_refused_line_changes_nothing()
    ensures files { (at : ExecState) → (code : Code)
        → ((stopped code at).interpreter.state ≡ at.interpreter.state)
        × ((counted at).interpreter.state ≡ at.interpreter.state)
        × ((unwaiting at).interpreter.state ≡ at.interpreter.state)
        × ((unwritten at).interpreter.state ≡ at.interpreter.state) }
    ensures typed { (at : RunState ExecState) → (key : ℕ) → (fault : Fault)
        → is_line (exec_semantics.mode_of at.state) ≡ true → turn_at exec_semantics at key ≡ turn.Refused fault
        → step exec_semantics at key
        ≡ run_state (line_start (exec_semantics.mode_of at.state) (session_at at key)) (counted at.state) at.moments }
    ensures given_up { (at : RunState ExecState) → (key : ℕ)
        → is_line (exec_semantics.mode_of at.state) ≡ true → turn_at exec_semantics at key ≡ turn.Abandoned
        → step exec_semantics at key
        ≡ run_state (line_start (exec_semantics.mode_of (unwaiting at.state)) (session_at at key)) (unwaiting at.state)
        at.moments }
    ensures commanded { (at : RunState ExecState) → (key : ℕ) → (code : Code)
        → is_line (exec_semantics.mode_of at.state) ≡ true → turn_at exec_semantics at key ≡ turn.Confirmed
        → line_code at.state (session_at at key) (moment_of at) ≡ Some code
        → (step exec_semantics at key).state ≡ stopped code at.state }
    ensures taken { (at : RunState ExecState) → (key : ℕ) → (lines : ℕ) → (line : List ℕ) → (code : Code)
        → (left : ExecState) → is_line (exec_semantics.mode_of at.state) ≡ true
        → turn_at exec_semantics at key ≡ turn.Confirmed
        → left ≡ left_by at.state (line_effects at.state (session_at at key) (moment_of at)) → lines < FILE_LINES
        → next_line exec_semantics (after_lines (moment_of at) left lines) ≡ Some line
        → file_line_code (after_lines (moment_of at) left lines)
        (file_session exec_semantics (after_lines (moment_of at) left lines) line) (moment_of at) ≡ Some code
        → (step exec_semantics at key).state ≡ stopped code (after_lines (moment_of at) left lines) }
    ensures written { (at : RunState ExecState) → (key : ℕ) → (code : Code)
        → is_line (exec_semantics.mode_of at.state) ≡ false
        → raw_answer at.state.interpreter key at.state.interpreter.typing ≡ answers.Refused code
        → (step exec_semantics at key).state ≡ unwritten at.state }
    ensures file { (at : ExecState) → (session : SessionState) → (moment : ℕ) → (code : Code)
        → file_line_code at session moment ≡ Some code
        → left_by at (file_line_effects at session moment) ≡ stopped code at }
    ensures ahead { (at : ExecState)
        → left_by at (looks_ahead at) ≡ stopped_by (next_fault at.taken (innermost at.files)) at }
    ensures end { (at : ExecState) → (pending : Pending) → (code : Code) → at.interpreter.pending ≡ Some pending
        → is_over (innermost at.files) ≡ true
        → completion_answer at.interpreter (pending_complete pending) ≡ answers.Refused code
        → left_by at (settles at) ≡ stopped code at }
    ensures act { (at : ExecState) → (moment : ℕ) → (command : Command) → (code : Code)
        → (act_of command moment at.interpreter.state).answer ≡ answers.Refused code
        → left_by at (acts at moment command) ≡ stopped code at }
{}

/// The bytes that are shown tell what has acted, where a run or a command file is cut short, be it by the screen, by
/// the log or by lack of memory. The place of the reply of an act is the number of bytes that are shown before it. The
/// acts that are done are the first ones, in order. Each is done whose reply place the shown bytes pass, and none whose
/// reply place lies past their end.
pub fn what_is_shown_tells_what_has_acted()
    ensures { (before now : Observation ExecState) → (events : List (Event ExecState)) → (why : Stop)
        → Traces before now events (Err why) → StandsAsShown before now events }
{}

/// Between keys no command file is open, and no line of one is counted: so it is at the start, and so each key leaves
/// it, unless LOGOUT has acted, after which no key is taken. So no file waits after the typed line that took it.
pub fn after_a_typed_line_no_file_waits()
    ensures start { (state : State) → IsQuiet (exec_start state) }
    ensures step { (at : RunState ExecState) → (key : ℕ) → IsQuiet at.state
        → IsQuietUnlessEnded (step exec_semantics at key).state }
{}

/// The numbers of command files: how many may be open at once.
pub fn these_are_the_numbers()
    ensures files { MOST_FILES ≡ 4 }
{}
