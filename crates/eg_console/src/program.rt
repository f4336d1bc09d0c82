// The program, which acts by lines alone.
ghost use Rattle.std.specs.Prelude.{◌≡◌, IfOk};
ghost use Rattle.eg_console.specs.Console.{console_start};

use crate::Interface;
use crate::console::{fresh, number_or, obey, put_reply};
use crate::grammar::ConsoleGrammar;
use crate::rules::{ConsoleRules, name_at};
use cm_blocks::{Grammar, Role};
use cm_files::OneDirectory;
use cm_io::{NoMemory, Sink, Writer};
use cm_run::{LineProgram, Own};
use cm_state::{Prompt, Session};
use std::alloc::Global;

/// The console in its course.
#[derive(Drop)]
pub struct Console {
    /// The grammar that its lines are parsed under.
    pub grammar: Own<ConsoleGrammar>,
    /// The names that a line may mean, for grammars that read files. This one reads none.
    pub names: OneDirectory,
    /// The interfaces, by their numbers.
    pub interfaces: [Interface; 4],
    /// Whether `quit` has acted.
    pub has_quit: bool,
}

impl Console {
    /// The console at its start: no interface has an address. There is an error where there is no memory for the
    /// grammar.
    pub fn new(alloc: Global) -> Result<Console, NoMemory>
        ensures { IfOk result (λ console. console ≡ console_start) }
    {
        Ok(Console {
            grammar: Own::new(alloc)?,
            names: OneDirectory::nothing(),
            interfaces: [
                fresh(name_at(0)),
                fresh(name_at(1)),
                fresh(name_at(2)),
                fresh(name_at(3)),
            ],
            has_quit: false,
        })
    }
}

impl LineProgram for Console {
    ghost use Rattle.cm_run.specs.PromptLaws.{main_until};
    ghost use Rattle.eg_console.specs.Console.{console_semantics};

    type Rules = ConsoleRules;

    type Names = OneDirectory;

    ghost means = { console_semantics };

    ghost keeps = { λ at. Unit {0} };

    ghost kept = { λ at session kept. kept };

    ghost prompts = { λ at kept. main_until at.has_quit 0 };

    fn grammar(&self) -> &Grammar {
        self.grammar.lend()
    }

    fn names(&self) -> &OneDirectory {
        &self.names
    }

    fn rules(&self) -> &ConsoleRules {
        &ConsoleRules
    }

    #[tactic(auto, using(crate::proofs::Faultless::node_count))]
    fn line(&self) -> Option<(u16, Prompt)> {
        if self.has_quit {
            None
        } else {
            Some((0, Prompt::Main))
        }
    }

    fn obey<S: Sink>(&mut self, session: &Session, out: &mut Writer<'_, S>) {
        put_reply(session, &self.interfaces, out);
        self.has_quit = number_or(0, session.value_of(Role::Verb)) == 2;
        obey(session, self.grammar.lend(), &mut self.interfaces);
    }
}
