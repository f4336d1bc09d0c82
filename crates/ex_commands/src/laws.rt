//! Laws of commands. Each is a function that does nothing, whose contract is the law.
ghost use Rattle.std.specs.Prelude.{ℕ, List, [], ◌∷◌, None, Some, true, ◌≡◌, ◌≢◌, ◌↔◌};
ghost use Rattle.cm_text.specs.Text.{IsLine};
ghost use Rattle.cm_blocks.specs.declared.field.Ending.TheVariants as ending;
ghost use Rattle.cm_blocks.specs.declared.function.Role.TheVariants as roles;
ghost use Rattle.cm_blocks.specs.Parse.{IsParse};
ghost use Rattle.cm_blocks.specs.Setting.{setting};
ghost use Rattle.cm_blocks.specs.FieldView.{FieldView};
ghost use Rattle.cm_fields.specs.declared.code.Code.{Code};
ghost use Rattle.cm_files.specs.Catalogue.{Catalogue, IsCatalogue};
ghost use Rattle.cm_state.specs.Echo.{refusal};
ghost use Rattle.cm_state.specs.Roles.{field_of};
ghost use Rattle.cm_state.specs.SessionState.{SessionState, text_of};
ghost use Rattle.ex_grammar.specs.declared.node.TheConstants.{COMMANDS};
ghost use Rattle.ex_grammar.specs.ExecRules.{exec_meanings};
ghost use Rattle.ex_grammar.specs.Graph.{exec_graph};
ghost use Rattle.ex_store.specs.declared.place.Place.{Place};
ghost use Rattle.ex_store.specs.declared.row.Row.{Row};
ghost use Rattle.ex_store.specs.Plan.{sources};
ghost use Rattle.ex_store.specs.State.{State, catalogue_of};
ghost use Rattle.ex_store.specs.WellFormed.{IsWellFormed};
ghost use Rattle.ex_commands.specs.declared.acted.Acted.TheVariants as answers;
ghost use Rattle.ex_commands.specs.declared.command.Command.{Command};
ghost use Rattle.ex_commands.specs.declared.command.Command.TheVariants as commands;
ghost use Rattle.ex_commands.specs.declared.commands.define.TheConstants.{NAME_RULE};
ghost use Rattle.ex_commands.specs.declared.commands.print.TheConstants.{AFTER_NODE, COPIES_NODE, FORMS_NODE, FORM_RULE, JOBNAME_NODE, NORMAL, NOTE_NODE};
ghost use Rattle.ex_commands.specs.declared.data.TheConstants.{CONTROL_C, CONTROL_Z, DELETE};
ghost use Rattle.ex_commands.specs.declared.lines.TheConstants.{DAY_SECONDS};
ghost use Rattle.ex_commands.specs.Act.{act_of, writes};
ghost use Rattle.ex_commands.specs.Answer.{MayAct};
ghost use Rattle.ex_commands.specs.Command.{added, command_of, is_pending, subcommand_node};
ghost use Rattle.ex_commands.specs.Line.{Line};
ghost use Rattle.ex_commands.specs.Replies.{ends_line};

/// What a line commands can be done: the directories are there, and names and numbers have their forms.
pub fn a_line_may_act()
    ensures { (state : State) (session : SessionState) → IsLine session.line → IsCatalogue (catalogue_of state)
        → IsParse (setting exec_graph (catalogue_of state) exec_meanings) COMMANDS (text_of session) session.fields
        ending.Done
        → MayAct (command_of (record {
          graph = exec_graph;
          catalogue = catalogue_of state;
          text = text_of session;
          fields = session.fields;
        })) state }
{}

/// A line that has a verb commands something, and a line that has none commands nothing.
pub fn a_line_with_a_verb_commands_something()
    ensures verb { (c : Catalogue) (text : List ℕ) (fields : List FieldView) (verb : FieldView)
        → IsParse (setting exec_graph c exec_meanings) COMMANDS text fields ending.Done
        → field_of roles.Verb fields ≡ Some verb
        → command_of (record { graph = exec_graph; catalogue = c; text = text; fields = fields }) ≢ commands.Empty }
    ensures none { (line : Line) → field_of roles.Verb line.fields ≡ None → command_of line ≡ commands.Empty }
{}

/// What may be done may be done with a subcommand more.
pub fn a_subcommand_may_act()
    ensures { (command : Command) (state : State) (c : Catalogue) (text : List ℕ) (fields : List FieldView)
        → IsParse (setting exec_graph c exec_meanings) (subcommand_node command) text fields ending.Done
        → MayAct command state → MayAct (added fields command) state }
{}

/// A command that may be done leaves of a state that is well formed one that is.
pub fn an_act_leaves_a_well_formed_state()
    ensures { (command : Command) (moment : ℕ) (state : State) → IsWellFormed state → MayAct command state
        → IsWellFormed (act_of command moment state).state }
{}

/// A refused command changes nothing, and shows why it is refused.
pub fn a_refusal_changes_nothing()
    ensures { (command : Command) (moment : ℕ) (state : State) (code : Code)
        → (act_of command moment state).answer ≡ answers.Refused code
        → ((act_of command moment state).state ≡ state) × ((act_of command moment state).reply ≡ refusal code) }
{}

/// A command waits where subcommands follow, and nowhere else.
pub fn a_command_waits_for_its_subcommands()
    ensures { (command : Command) (moment : ℕ) (state : State)
        → ((act_of command moment state).answer ≡ answers.Pending) ↔ (is_pending command ≡ true) }
{}

/// A command that waits changes nothing, and shows nothing.
pub fn a_command_that_waits_changes_nothing()
    ensures { (command : Command) (moment : ℕ) (state : State)
        → (act_of command moment state).answer ≡ answers.Pending
        → ((act_of command moment state).state ≡ state) × ((act_of command moment state).reply ≡ []) }
{}

/// LOGOUT alone ends the run.
pub fn only_logout_ends_the_run()
    ensures { (command : Command) (moment : ℕ) (state : State)
        → ((act_of command moment state).answer ≡ answers.Logout) ↔ (command ≡ commands.Logout) }
{}

/// A line of TAKE means one file.
pub fn a_line_takes_one_file()
    ensures { (state : State) (session : SessionState) (file : Place) → IsWellFormed state
        → IsParse (setting exec_graph (catalogue_of state) exec_meanings) COMMANDS (text_of session) session.fields
        ending.Done
        → command_of (record {
          graph = exec_graph;
          catalogue = catalogue_of state;
          text = text_of session;
          fields = session.fields;
        }) ≡ commands.Take file
        → (row : Row) × (sources file state ≡ row ∷ []) }
{}

/// A file is typed in after COPY TTY: alone.
pub fn only_copy_from_the_terminal_begins_a_file()
    ensures { (command : Command) (moment : ℕ) (state : State)
        → (act_of command moment state).answer ≡ answers.Data → (to : Place) × (command ≡ commands.CopyTty to) }
{}

/// The lines of a file are taken after TAKE alone.
pub fn only_take_begins_a_command_file()
    ensures { (command : Command) (moment : ℕ) (state : State)
        → ((act_of command moment state).answer ≡ answers.Take) ↔ ((file : Place) × (command ≡ commands.Take file)) }
{}

/// What a command shows is nothing, or ends with a line feed; and so is what is shown where a file that was typed in is
/// written. So a line begins at the start of a row.
pub fn a_reply_ends_its_line()
    ensures command { (command : Command) (moment : ℕ) (state : State)
        → ends_line (act_of command moment state).reply ≡ true }
    ensures typed { (to : Place) (bytes : List ℕ) (moment : ℕ) (state : State)
        → ends_line (writes to bytes moment state).reply ≡ true }
{}

/// The numbers of commands: the seconds of a day, the rules of logical names and of forms, the form NORMAL, the nodes
/// of the values of switches, and the keys that end the typing of a file or take its last byte away.
pub fn these_are_the_numbers()
    ensures name_rule { NAME_RULE ≡ 0 }
    ensures form_rule { FORM_RULE ≡ 1 }
    ensures normal { NORMAL ≡ 1 }
    ensures after { AFTER_NODE ≡ 40 }
    ensures copies { COPIES_NODE ≡ 41 }
    ensures forms { FORMS_NODE ≡ 42 }
    ensures job { JOBNAME_NODE ≡ 43 }
    ensures note { NOTE_NODE ≡ 44 }
    ensures day { DAY_SECONDS ≡ 86400 }
    ensures control_c { CONTROL_C ≡ 3 }
    ensures control_z { CONTROL_Z ≡ 26 }
    ensures delete { DELETE ≡ 127 }
{}
