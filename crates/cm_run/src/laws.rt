// Laws of every run, whatever the application, of what displays show of it, and of programs of lines alone.
ghost use Rattle.std.specs.Prelude.{◌≡◌, ◌⊎◌, ◌<◌, ◌^◌, ◌-◌, ℕ, Bool, false, List, [], ◌∷◌, ◌++◌, None, Result, Ok, Err, Option, IfSome, map, ◌≢◌, true};
ghost use Rattle.cm_text.specs.ScreenBytes.{screen_byte};
ghost use Rattle.cm_text.specs.Text.{IsLine};
ghost use Rattle.cm_text.specs.declared.text.TheConstants.{JOIN};
ghost use Rattle.cm_io.specs.Contents.{AddsPart, IsPart};
ghost use Rattle.cm_io.specs.Display.{ArePrinted};
ghost use Rattle.cm_line.specs.Keys.{class_at};
ghost use Rattle.cm_blocks.specs.declared.field.Fault.{Fault};
ghost use Rattle.cm_blocks.specs.Setting.{Setting};
ghost use Rattle.cm_state.specs.SessionState.{SessionState, at_start, line_before};
ghost use Rattle.cm_state.specs.declared.turn.Turn.{Turn};
ghost use Rattle.cm_state.specs.declared.turn.Turn.TheVariants as turn;
ghost use Rattle.cm_state.specs.declared.prompt.Prompt.{Prompt};
ghost use Rattle.cm_state.specs.declared.prompt.Prompt.TheVariants.{Main, Sub};
ghost use Rattle.cm_state.specs.Echo.{echo, has_join, prompt_text};
ghost use Rattle.cm_state.specs.Edit.{edited};
ghost use Rattle.cm_run.specs.Cause.{Counts, KeyCount, RunCause};
ghost use Rattle.cm_run.specs.Cut.{Traces};
ghost use Rattle.cm_run.specs.Event.{Act, Event, Log, Screen, Trials, log_bytes, screen_bytes, state_after, trials_of};
ghost use Rattle.cm_run.specs.ExactCut.{IsExactCut};
ghost use Rattle.cm_run.specs.Semantics.{Semantics, setting_of};
ghost use Rattle.cm_run.specs.Observation.{Observation};
ghost use Rattle.cm_run.specs.Progress.{keys_cost, progress, keystroke_cost, MeetSound};
ghost use Rattle.cm_run.specs.Trace.{RunState, events_if, key_trace, keystroke, run_trace, starting, turn_outcome, step};
ghost use Rattle.cm_run.specs.declared.engine.TheConstants.{FILE_LINES};
ghost use Rattle.cm_run.specs.declared.line_program.TheConstants.{LINE_KEYS};
ghost use Rattle.cm_run.specs.Keeping.{IsLineKeeping, IsLineKeepingWhile, KeepsLine, is_line};
ghost use Rattle.cm_run.specs.Shows.{EndsLine, IsClear, Shows, ShowsAfter, row_after};
ghost use Rattle.cm_run.specs.Sound.{IsSound};
ghost use Rattle.cm_line.specs.declared.key.KeyClass.TheVariants as classes;
ghost use Rattle.cm_run.specs.Idle.{EndsOnlyWhere, IsIdle, turn_at};
ghost use Rattle.cm_run.specs.LineSemantics.{LineSemantics, line_mode, lines_only};
ghost use Rattle.cm_run.specs.Obey.{left_by};
ghost use Rattle.cm_run.specs.LineRun.{LineRun};

use crate::{Application, Display, LineProgram, Stop};

/// Nothing acts before confirmation: a line that goes on does nothing and takes no moment, and one that is refused
/// takes none, and does no more than what the application means by a refusal, which shows nothing and takes no memory.
pub fn only_a_line_that_is_done_acts<A: Application>()
    // [confirmation]
    ensures going_on { (m : Semantics A) → (state : A) → (session : SessionState) → (moment : ℕ) → (it : Turn)
        → (turn_outcome m state session moment it).begins ≡ false
        → ((turn_outcome m state session moment it).events ≡ [])
        × ((turn_outcome m state session moment it).takes_moment ≡ false) }
    ensures refused { (m : Semantics A) → (state : A) → (session : SessionState) → (moment : ℕ) → (fault : Fault)
        → ((turn_outcome m state session moment (turn.Refused fault)).events ≡ Act (m.refusal state) ∷ [])
        × ((turn_outcome m state session moment (turn.Refused fault)).takes_moment ≡ false) }
{}

/// Nothing acts before the key that confirms it is shown whole, and logged where there is a log: whatever of the trace
/// of a key is before an act begins with its trials, its echo and its line of the log.
pub fn nothing_acts_before_its_line_is_logged<A: Application>()
    ensures { (m : Semantics A) → (logging : Bool) → (at : RunState A) → (key : ℕ)
        → (first more : List (Event A)) → (left : A) → first ++ Act left ∷ more ≡ key_trace m logging at key
        → (between : List (Event A)) × (first ≡ Trials (keystroke m at key).cost ∷ Screen (keystroke m at key).echo
        ∷ (events_if logging (Log (keystroke m at key).log ∷ []) ++ between)) }
{}

/// A run that is cut short shows and logs a beginning of what the whole run shows and logs: a failed screen, or a
/// failed log, is given no more.
pub fn a_cut_run_is_a_beginning<A: Application>()
    ensures screen { (before now : Observation A) → (events : List (Event A)) → (result : Result Unit Stop)
        → Traces before now events result → AddsPart before.screen now.screen (screen_bytes events) }
    ensures log { (before now : Observation A) → (events : List (Event A)) → (result : Result Unit Stop)
        → Traces before now events result → AddsPart before.log now.log (log_bytes events) }
{}

/// What is at a cut is exact. One event of the trace is cut, such as the answer says: bytes for the screen or for the
/// log, a key or their end, memory, or that a key is asked for. The keys that are taken and how often keys were asked
/// for, the moments, the counter of trials and the state are those of the events before it; screen and log have the
/// bytes of those, and of its own a part.
pub fn what_stands_at_a_cut_is_exact<A: Application>()
    ensures { (before now : Observation A) → (events : List (Event A)) → (why : Stop)
        → Traces before now events (Err why) → IsExactCut why before now events }
{}

/// A run over more keys shows what the run over the first of them shows, and then more: so the bytes that a run has
/// shown by a key are those of the run over the keys up to it.
pub fn a_run_shows_what_its_first_keys_show<A: Application>()
    ensures { (m : Semantics A) → (logging : Bool) → (state : A) → (moments first more : List ℕ)
        → IsPart (screen_bytes (run_trace m logging state moments first))
        (screen_bytes (run_trace m logging state moments (first ++ more))) }
{}

/// The state that a run leaves is the one to which its keys lead.
pub fn a_run_leaves_where_its_keys_lead<A: Application>()
    ensures { (m : Semantics A) → (logging : Bool) → (state : A) → (moments keys : List ℕ)
        → state_after state (run_trace m logging state moments keys)
        ≡ (progress m (starting m state moments) keys).state }
{}

/// The counter rises by what the keys cost, one after the other, with a log or without: each the trials of its line,
/// and of the lines of command files that it takes. Where none of those ever waits, it is its line's alone.
pub fn the_counter_is_the_sum_over_the_keys<A: Application>()
    ensures sum { (m : Semantics A) → (logging : Bool) → (state : A) → (moments keys : List ℕ)
        → trials_of (run_trace m logging state moments keys) ≡ keys_cost m (starting m state moments) keys }
    ensures line { (m : Semantics A) → ((state : A) → m.file_line state ≡ None) → (at : RunState A) → (key : ℕ)
        → keystroke_cost (keystroke m at key) ≡ (keystroke m at key).cost }
{}

/// With fewer keys than the limit, and no fault counted, a run goes to its end, but for lack of memory.
pub fn a_quiet_run_goes_to_its_end()
    ensures { (limit before now : ℕ) → (ended : Bool) → (counts : Counts) → (result : Result Unit Stop)
        → RunCause counts counts result → KeyCount limit before now ended result
        → counts.screen < 2 ^ 64 - 1 → counts.log < 2 ^ 64 - 1 → counts.keys < 2 ^ 64 - 1 → before < limit
        → (result ≡ Ok tt) ⊎ (result ≡ Err Stop.Memory) }
{}

/// The numbers of the engine: the most lines of command files that are taken for one typed line, and the most keys that
/// a program of lines alone takes.
pub fn these_are_the_numbers()
    ensures lines { FILE_LINES ≡ 10000 }
    ensures keys { LINE_KEYS ≡ 2 ^ 64 - 1 }
{}

/// The prompts `@` and `@@` are printed bytes. A program sees to it that a prompt of its own is.
pub fn the_prompts_are_printed()
    ensures main { ArePrinted (prompt_text Main) }
    ensures sub { ArePrinted (prompt_text Sub) }
{}

/// A line without a join byte is after its prompt in one row, each TAB as a space.
pub fn a_line_without_a_join_is_one_row()
    ensures { (prompt line : List ℕ) → has_join line ≡ false
        → row_after prompt line ≡ prompt ++ map screen_byte line }
{}

/// Of a line with join bytes the last row holds what follows the last of them, and nothing of the prompt.
pub fn a_row_begins_after_a_join()
    ensures { (prompt before row : List ℕ) → has_join row ≡ false
        → row_after prompt (before ++ JOIN ∷ row) ≡ map screen_byte row }
{}

/// Where a display holds nothing, a prompt shows prompt and line of the session that begins with it.
pub fn a_prompt_begins_a_line<D: Display>()
    ensures shows { (display : D.State) → D.holds display [] → (node : ℕ) → (prompt : Prompt)
        → (recall : Option (List ℕ)) → ArePrinted (prompt_text prompt)
        → Shows D.holds (D.feed display (prompt_text prompt)) (at_start node prompt recall) }
    ensures clear { (node : ℕ) → (prompt : Prompt) → (recall : Option (List ℕ))
        → ArePrinted (prompt_text prompt) → IfSome recall IsLine → IsClear (at_start node prompt recall) }
{}

/// Where a display shows prompt and line, the echo of a key leaves it showing prompt and line as they then are, for
/// lines and prompts of every length; of a line with join bytes that is what follows the last. After a key that
/// finishes the line or gives it up the display holds nothing.
pub fn a_key_keeps_the_screen<D: Display>()
    ensures clear { (s : Setting) → IsSound s → (held : SessionState) → (key : ℕ) → IsClear held
        → IsClear (edited s held key) }
    ensures shows { (s : Setting) → IsSound s → (held : SessionState) → (key : ℕ) → IsClear held
        → (display : D.State) → Shows D.holds display held
        → ShowsAfter D.holds (class_at (line_before held) key) (D.feed display (echo s held key)) (edited s held key) }
{}

/// Where a display holds nothing, a reply that is empty or ends with a line feed leaves it holding nothing.
pub fn a_reply_ends_its_line<D: Display>()
    ensures { (display : D.State) → (bytes : List ℕ) → EndsLine bytes → D.holds display []
        → D.holds (D.feed display bytes) [] }
{}

/// After the first prompt, and after every key with what it does and the next prompt, a display shows prompt and
/// line as they then are, wherever the next key is for a line: for every application whose replies end their lines.
/// Raw keys may come between; what they show is asked only to end its line where a line begins again.
///
/// `run` ensures of the keys that were taken that what each of them met is sound.
pub fn a_run_keeps_the_screen<A: Application, D: Display>()
    ensures { (m : Semantics A) → IsLineKeeping m → (state : A) → (moments keys : List ℕ)
        → MeetSound m (starting m state moments) keys → KeepsLine D.feed D.holds m state moments keys }
{}

/// Only an End key confirms a line. A key of a line that is refused leaves what the application means by a refusal, one
/// with which it is given up what it means by that, and one with which it goes on leaves all as it is.
pub fn a_line_that_is_not_confirmed_does_not_act<A: Application>()
    ensures confirmed { (m : Semantics A) → (at : RunState A) → (key : ℕ) → turn_at m at key ≡ turn.Confirmed
        → class_at (line_before at.session) key ≡ classes.End }
    ensures refused { (m : Semantics A) → (at : RunState A) → (key : ℕ) → (fault : Fault)
        → is_line (m.mode_of at.state) ≡ true → turn_at m at key ≡ turn.Refused fault
        → (step m at key).state ≡ m.refusal at.state }
    ensures given_up { (m : Semantics A) → (at : RunState A) → (key : ℕ)
        → is_line (m.mode_of at.state) ≡ true → turn_at m at key ≡ turn.Abandoned
        → (step m at key).state ≡ m.abandonment at.state }
    ensures going_on { (m : Semantics A) → (at : RunState A) → (key : ℕ)
        → is_line (m.mode_of at.state) ≡ true → turn_at m at key ≡ turn.Edited
        → (step m at key).state ≡ at.state }
{}

/// A raw key leaves what its acts leave.
pub fn a_raw_key_does_its_acts<A: Application>()
    ensures { (m : Semantics A) → (at : RunState A) → (key : ℕ) → is_line (m.mode_of at.state) ≡ false
        → (step m at key).state ≡ left_by at.state (m.raw_effects at.state key) }
{}

/// Of an application of which refusals and abandonment change nothing that is seen, nothing that is seen is changed by
/// a key of a line, but by one that confirms it.
pub fn an_idle_application_changes_where_a_line_is_confirmed<A: Application, V>()
    ensures { (m : Semantics A) → (seen : A → V) → IsIdle m seen → (at : RunState A) → (key : ℕ)
        → is_line (m.mode_of at.state) ≡ true → turn_at m at key ≢ turn.Confirmed
        → seen (step m at key).state ≡ seen at.state }
{}

/// Until a program of lines alone has ended, a key that confirms a line leaves the state that the line leaves, and any
/// other key leaves all as it is: so it ends only where such a line leaves it ended.
pub fn a_line_program_changes_where_a_line_is_confirmed<P: LineProgram>()
    ensures confirmed { (p : LineSemantics P) → (at : RunState P) → (key : ℕ)
        → is_line ((lines_only p).mode_of at.state) ≡ true → turn_at (lines_only p) at key ≡ turn.Confirmed
        → (step (lines_only p) at key).state
        ≡ p.state_of at.state (edited (setting_of (lines_only p) at.state) at.session key) }
    ensures other { (p : LineSemantics P) → (at : RunState P) → (key : ℕ)
        → is_line ((lines_only p).mode_of at.state) ≡ true → turn_at (lines_only p) at key ≢ turn.Confirmed
        → (step (lines_only p) at key).state ≡ at.state }
    ensures ends { (p : LineSemantics P) → (test : SessionState → Bool)
        → ((state : P) → (session : SessionState) → is_line (line_mode (p.line_of (p.state_of state session))) ≡ false
        → test session ≡ true) → EndsOnlyWhere p test }
{}

/// A program of lines alone keeps its lines: what it shows are whole lines, each key keeps what the program keeps of
/// its state, and while that holds the prompts are printed bytes.
pub fn a_line_program_keeps_its_lines<P: LineProgram>()
    ensures { IsLineKeepingWhile P.keeps (lines_only P.means) }
{}

/// So where its state was such at first, after each beginning of the keys that its run has taken a display shows prompt
/// and line, until it has ended.
pub fn a_line_program_keeps_the_screen<P: LineProgram, D: Display>()
    ensures { (before now : Observation P) → (result : Result Unit Stop) → P.keeps before.state
        → LineRun P.means before now result → (taken rest : List ℕ) → (taken ++ rest) ++ now.keys ≡ before.keys
        → KeepsLine D.feed D.holds (lines_only P.means) before.state [] taken }
{}
