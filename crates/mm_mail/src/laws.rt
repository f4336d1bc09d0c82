//! Laws of mail. Each is a function that does nothing, whose contract is the law.
ghost use Rattle.std.specs.Prelude.{◌≡◌, ◌≢◌, ◌<◌, ◌++◌, ◌∷◌, ℕ, List, false, true};
ghost use Rattle.cm_line.specs.Keys.{class_at};
ghost use Rattle.cm_line.specs.declared.key.KeyClass.TheVariants as classes;
ghost use Rattle.cm_blocks.specs.Parse.{IsParse};
ghost use Rattle.cm_blocks.specs.Setting.{setting};
ghost use Rattle.cm_blocks.specs.declared.field.Ending.TheVariants as ending;
ghost use Rattle.cm_fields.specs.declared.code.Code.{Code};
ghost use Rattle.cm_state.specs.Edit.{edited};
ghost use Rattle.cm_state.specs.SessionState.{SessionState, line_before, text_of};
ghost use Rattle.cm_state.specs.declared.turn.Turn.TheVariants as turn;
ghost use Rattle.cm_run.specs.Event.{Event, Memory, keys_of};
ghost use Rattle.cm_run.specs.Idle.{turn_at};
ghost use Rattle.cm_run.specs.Keeping.{IsLineKeeping, is_line};
ghost use Rattle.cm_run.specs.Semantics.{setting_of};
ghost use Rattle.cm_run.specs.Trace.{RunState, step};
ghost use Rattle.ex_store.specs.State.{State, catalogue_of};
ghost use Rattle.ex_store.specs.declared.row.Row.{Row};
ghost use Rattle.ex_commands.specs.declared.acted.Acted.TheVariants as answers;
ghost use Rattle.mm_mail.specs.Command.{MayAct, command_of};
ghost use Rattle.mm_mail.specs.Delivery.{IsRead, number_for, sends};
ghost use Rattle.mm_mail.specs.Graph.{mail_graph};
ghost use Rattle.mm_mail.specs.LaterAct.{AllSpare, MailAct, state_after};
ghost use Rattle.mm_mail.specs.Mailbox.{is_numbered_in};
ghost use Rattle.mm_mail.specs.MailRules.{mail_meanings};
ghost use Rattle.mm_mail.specs.MailRun.{mail_trace};
ghost use Rattle.mm_mail.specs.MailState.{MailState};
ghost use Rattle.mm_mail.specs.Semantics.{act_of, mail_semantics};
ghost use Rattle.mm_mail.specs.MessageName.{name_number};
ghost use Rattle.mm_mail.specs.TakesMemory.{LastTakesMemory};
ghost use Rattle.mm_mail.specs.declared.command.Command.{Command};
ghost use Rattle.mm_mail.specs.declared.command.Command.TheVariants as commands;
ghost use Rattle.mm_mail.specs.declared.grammar.TheConstants.{COMMANDS, DELETE, HEADERS, LINE_END, MESSAGE, QUIT, READ, RECEIVER, SEND};
ghost use Rattle.mm_mail.specs.declared.mailbox.TheConstants.{FIRST_GENERATION, HEADER_BYTES};
ghost use Rattle.mm_mail.specs.declared.message.Message.{Message};
ghost use Rattle.mm_mail.specs.declared.message_name.TheConstants.{MOST_MESSAGES, NAME_DIGITS, PREFIX_LENGTH};

/// What a line commands can be done: its number is one that a message may have, and its receiver is there.
pub fn a_line_may_act()
    ensures { (state : State) (session : SessionState)
        → IsParse (setting mail_graph (catalogue_of state) mail_meanings) COMMANDS (text_of session) session.fields
        ending.Done
        → MayAct (command_of (catalogue_of state) session) state }
{}

/// Mail leaves the screen at the start of a row wherever a line begins.
pub fn mail_keeps_its_lines()
    ensures { IsLineKeeping mail_semantics }
{}

/// Only two keys change directories and files: the End key that confirms a line, and control-Z, 26, which sends a
/// message that is typed in. So a line that is refused or given up changes nothing, and SEND nothing before control-Z.
pub fn only_confirmation_and_control_z_change_files()
    ensures line { (at : RunState MailState) → (key : ℕ) → is_line (mail_semantics.mode_of at.state) ≡ true
        → turn_at mail_semantics at key ≢ turn.Confirmed → (step mail_semantics at key).state ≡ at.state }
    ensures confirmed { (at : RunState MailState) → (key : ℕ) → turn_at mail_semantics at key ≡ turn.Confirmed
        → class_at (line_before at.session) key ≡ classes.End }
    ensures send { (receiver subject : List ℕ) → (state : State)
        → (act_of (commands.Send receiver subject) state).state ≡ state }
    ensures typing { (at : RunState MailState) → (key : ℕ) → is_line (mail_semantics.mode_of at.state) ≡ false
        → key ≢ 26
        → (step mail_semantics at key).state.state ≡ at.state.state }
{}

/// A command that is refused changes nothing, nor does a message that is.
pub fn a_refusal_changes_nothing()
    ensures command { (command : Command) → (state : State) → (code : Code)
        → (act_of command state).answer ≡ answers.Refused code → (act_of command state).state ≡ state }
    ensures message { (message : Message) → (state : State) → (code : Code)
        → (sends message state).answer ≡ answers.Refused code → (sends message state).state ≡ state }
{}

/// Only QUIT ends the run: a key ends it only where it confirms a line that commands QUIT, which changes no directory
/// and no file.
pub fn only_quit_ends_the_run()
    ensures key { (at : RunState MailState) → (key : ℕ) → at.state.ended ≡ false
        → (step mail_semantics at key).state.ended ≡ true → (turn_at mail_semantics at key ≡ turn.Confirmed)
        × (command_of (catalogue_of at.state.state) (edited (setting_of mail_semantics at.state) at.session key)
        ≡ commands.Quit) }
    ensures same { (state : State) → (act_of commands.Quit state).state ≡ state }
{}

/// The number of a message that is sent is above those of all files of messages that its receiver has by then, marked
/// as deleted or not and of any generation.
pub fn a_message_has_a_number_of_its_own()
    ensures { (message : Message) → (state : State) → (before after : List Row) → (row : Row)
        → before ++ row ∷ after ≡ state.rows → is_numbered_in message.receiver row ≡ true
        → name_number row.key.name < number_for message state }
{}

/// What is sent is read: a message that is sent is a message of its receiver's, the only one with its number, not
/// marked as deleted; its file holds sender, subject and what was typed in, byte for byte; and READ of that number by
/// its receiver shows it. So it stays after any number of later lines and messages that are sent, in which no DELETE
/// names it.
pub fn what_is_sent_is_read()
    ensures sent { (message : Message) → (state : State) → (sends message state).answer ≡ answers.Ok
        → IsRead message state (sends message state).state }
    ensures later { (message : Message) → (state left : State) → (acts : List MailAct) → IsRead message state left
        → AllSpare message.receiver (number_for message state) left acts
        → IsRead message state (state_after left acts) }
{}

/// Past the first prompt memory runs out at two kinds of keys alone: one that finishes a line of SEND, and control-Z,
/// 26, which sends its message.
pub fn memory_is_wanting_where_a_message_is_sent()
    ensures { (start : State) → (moments keys : List ℕ) → (done rest : List (Event MailState))
        → done ++ Memory ∷ rest ≡ mail_trace start moments keys → LastTakesMemory start moments (keys_of done) }
{}

/// The numbers of mail: the greatest number of a message, how its name is made, its generation, how much of it the list
/// of messages shows, the codes of the commands, and the nodes of the grammar.
pub fn these_are_the_numbers()
    ensures most { MOST_MESSAGES ≡ 9999 }
    ensures name { (PREFIX_LENGTH ≡ 4) × (NAME_DIGITS ≡ 4) }
    ensures generation { FIRST_GENERATION ≡ 1 }
    ensures header { HEADER_BYTES ≡ 90 }
    ensures codes { (DELETE ≡ 1) × (HEADERS ≡ 2) × (QUIT ≡ 3) × (READ ≡ 4) × (SEND ≡ 5) }
    ensures nodes { (COMMANDS ≡ 0) × (MESSAGE ≡ 1) × (RECEIVER ≡ 3) × (LINE_END ≡ 5) }
{}
