// The program, which acts by lines alone.
ghost use Rattle.std.specs.Prelude.{◌≡◌, ◌++◌, IfOk};
ghost use Rattle.cm_text.specs.ScreenBytes.{end_of_line};
ghost use Rattle.cm_io.specs.Writer.{Writes};
ghost use Rattle.eg_template.specs.Program.{added, answer, program_start};

use crate::grammar::{COMMANDS, SumGrammar};
use crate::{Command, command_of};
use cm_blocks::Grammar;
use cm_files::OneDirectory;
use cm_hooks::NoRules;
use cm_io::{NoMemory, Sink, Writer};
use cm_run::{LineProgram, Own};
use cm_state::{Prompt, Session};
use cm_text::decimal_digits;
use std::alloc::Global;

/// The greatest sum.
pub const MOST: u64 = u64::MAX;

/// The program in its course.
#[derive(Drop)]
pub struct Program {
    /// The grammar that its lines are parsed under.
    pub grammar: Own<SumGrammar>,
    /// The names that a line may mean, for grammars that read files. This one reads none.
    pub names: OneDirectory,
    /// The sum.
    pub sum: u64,
    /// Whether QUIT has acted.
    pub has_quit: bool,
}

impl Program {
    /// The program at its start: nothing is added. There is an error where there is no memory for the grammar.
    pub fn new(alloc: Global) -> Result<Program, NoMemory>
        ensures { IfOk result (λ program. program ≡ program_start) }
    {
        Ok(Program {
            grammar: Own::new(alloc)?,
            names: OneDirectory::nothing(),
            sum: 0,
            has_quit: false,
        })
    }

    // Adds a number, and writes the line that ADD shows. A sum that would be too large leaves it.
    #[tactic(auto, unfolding(crate::specs::Program::too_large))]
    fn add<S: Sink>(&mut self, number: u64, out: &mut Writer<'_, S>)
        ensures state { self.new ≡ added number self.old }
        ensures reply { Writes S.Sink out.old out.new (answer number self.old.sum ++ end_of_line) }
    {
        if number <= MOST - self.sum {
            self.sum += number;
            out.put_line(decimal_digits(self.sum).as_bytes());
        } else {
            out.put_line(b"?The sum is too large");
        }
    }
}

impl LineProgram for Program {
    ghost use Rattle.cm_run.specs.PromptLaws.{main_until};
    ghost use Rattle.eg_template.specs.Program.{program_semantics};
    ghost use Rattle.eg_template.specs.declared.grammar.TheConstants.{COMMANDS};

    type Rules = NoRules;

    type Names = OneDirectory;

    ghost means = { program_semantics };

    ghost keeps = { λ at. Unit {0} };

    ghost kept = { λ at session kept. kept };

    ghost prompts = { λ at kept. main_until at.has_quit COMMANDS };

    fn grammar(&self) -> &Grammar {
        self.grammar.lend()
    }

    fn names(&self) -> &OneDirectory {
        &self.names
    }

    fn rules(&self) -> &NoRules {
        &NoRules
    }

    #[tactic(auto, using(crate::proofs::Faultless::node_count))]
    fn line(&self) -> Option<(u16, Prompt)> {
        if self.has_quit {
            None
        } else {
            Some((COMMANDS, Prompt::Main))
        }
    }

    #[tactic(auto, using(cm_io::proofs::Texts::lines))]
    fn obey<S: Sink>(&mut self, session: &Session, out: &mut Writer<'_, S>) {
        match command_of(session) {
            Command::Add(number) => self.add(number, out),
            Command::Quit => self.has_quit = true,
            Command::Nothing => {}
        }
    }
}
