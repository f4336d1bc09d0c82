// The program: the lamps, which act by lines alone.
ghost use Rattle.std.specs.Prelude.{◌≡◌};
ghost use Rattle.cm_files.specs.OneDirectory.{no_files};
ghost use Rattle.eg_lamps.specs.Lamps.{lamp_meanings};
ghost use Rattle.eg_lamps.specs.Program.{State, lamp_start};

use crate::grammar::{COMMANDS, LampGrammar};
use crate::{Command, Lamp, command_of, dark_lamps, obey, put_reply};
use cm_blocks::Grammar;
use cm_files::OneDirectory;
use cm_hooks::Rules;
use cm_io::{Sink, Writer};
use cm_run::{LineProgram, Own};
use cm_state::{Prompt, Session};
use std::marker::Model;

/// The program in its course, over any rules by which hook 0 reads a room. What it means names none of them.
#[derive(Drop)]
pub struct Program<R: Rules> {
    // The grammar that its lines are parsed under.
    grammar: Own<LampGrammar>,
    // What is said of a room.
    rules: R,
    // The names that a line may mean, for grammars that read files. This one reads none.
    names: OneDirectory,
    /// The lamps, by the numbers of their rooms.
    pub lamps: [Lamp; 4],
    /// Whether QUIT has acted.
    pub has_quit: bool,
}

impl<R: Rules> Model for Program<R> {
    ghost Value = { State };

    ghost view = { λ it. record { lamps = it.lamps; has_quit = it.has_quit } };

    ghost invariant = { λ it. (R.meanings it.rules ≡ lamp_meanings) × (it.names ≡ no_files) };
}

impl<R: Rules> Program<R> {
    /// The program at its start, with its grammar and over these rules: all lamps are dark.
    pub fn new(grammar: Own<LampGrammar>, rules: R) -> Program<R>
        requires { R.meanings rules ≡ lamp_meanings }
        ensures { result ≡ lamp_start }
    {
        Program {
            grammar,
            rules,
            names: OneDirectory::nothing(),
            lamps: dark_lamps(),
            has_quit: false,
        }
    }
}

impl<R: Rules> LineProgram for Program<R> {
    ghost use Rattle.cm_run.specs.PromptLaws.{main_until};
    ghost use Rattle.eg_lamps.specs.Program.{lamp_semantics};
    ghost use Rattle.eg_lamps.specs.declared.grammar.TheConstants.{COMMANDS};

    type Rules = R;

    type Names = OneDirectory;

    ghost means = { lamp_semantics };

    ghost keeps = { λ at. Unit {0} };

    ghost kept = { λ at session kept. kept };

    ghost prompts = { λ at kept. main_until at.has_quit COMMANDS };

    fn grammar(&self) -> &Grammar {
        self.grammar.lend()
    }

    fn names(&self) -> &OneDirectory {
        &self.names
    }

    fn rules(&self) -> &R {
        &self.rules
    }

    #[tactic(auto, using(crate::proofs::Faultless::graph_nodes))]
    fn line(&self) -> Option<(u16, Prompt)> {
        if self.has_quit {
            None
        } else {
            Some((COMMANDS, Prompt::Main))
        }
    }

    fn obey<S: Sink>(&mut self, session: &Session, out: &mut Writer<'_, S>) {
        let command = command_of(session, self.grammar.lend());
        put_reply(&command, &self.lamps, out);
        self.has_quit = matches!(command, Command::Quit);
        obey(command, &mut self.lamps);
    }
}
