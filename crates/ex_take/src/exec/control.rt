// What a controller that hands lines in asks of the EXEC.
ghost use Rattle.std.specs.Prelude.{◌≡◌, None};
ghost use Rattle.cm_blocks.specs.Parse.{IsParse};
ghost use Rattle.cm_blocks.specs.Setting.{setting};
ghost use Rattle.cm_blocks.specs.declared.field.Ending.TheVariants as ending;
ghost use Rattle.cm_run.specs.Semantics.{IsLineAt};
ghost use Rattle.cm_state.specs.SessionState.{text_of};
ghost use Rattle.ex_commands.specs.Answer.{MayAct};
ghost use Rattle.ex_grammar.specs.ExecRules.{exec_meanings};
ghost use Rattle.ex_grammar.specs.Graph.{exec_graph};
ghost use Rattle.ex_store.specs.State.{catalogue_of};
ghost use Rattle.ex_take.specs.ExecState.{forgiven};
ghost use Rattle.ex_take.specs.Interpreter.{command_at, mode_of};

use super::Exec;
use cm_state::Session;
use ex_commands::Command;

impl Exec {
    /// What a line commands that is confirmed where no command waits for subcommands.
    #[tactic(auto, using(crate::proofs::PendingCommands::main_line))]
    pub fn command_of(&self, session: &Session) -> Command
        requires line { IsLineAt (mode_of self.now.interpreter) session.now.node }
        requires parse { IsParse (setting exec_graph (catalogue_of self.now.interpreter.state) exec_meanings)
            session.now.node (text_of session.now) session.now.fields ending.Done }
        requires free { self.now.interpreter.pending ≡ None }
        ensures command { result ≡ command_at self.now.interpreter session.now }
        ensures may_act { MayAct result self.now.interpreter.state }
        ensures line { self.now.interpreter.typing ≡ None }
    {
        self.interpreter.command_of(session, self.grammar.lend())
    }

    /// Forgets why a line was refused last.
    pub fn forgive(&mut self)
        ensures { self.new ≡ forgiven self.old }
    {
        self.stop = None;
    }
}
