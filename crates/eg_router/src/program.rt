// The router as a program, which acts by lines alone.
ghost use Rattle.std.specs.Prelude.{◌≡◌, ◌≤◌, length};
ghost use Rattle.cm_text.specs.declared.name.TheConstants.{NAME_LIMIT};
ghost use Rattle.eg_router.specs.Program.{prompt};

use crate::configuration::put_reply;
use crate::grammar::{
    CONFIGURATION_LINES, INTERFACE_LINES, PRIVILEGED_LINES, PROTOCOL_LINES, USER_LINES,
};
use crate::{Interfaces, Mode, Router, command_of};
use cm_blocks::Grammar;
use cm_files::OneDirectory;
use cm_io::{Sink, Writer};
use cm_run::LineProgram;
use cm_state::{Label, Prompt, Session};
use cm_text::Name;

impl LineProgram for Router {
    ghost use Rattle.eg_router.specs.Command.{command_of};
    ghost use Rattle.eg_router.specs.Interfaces.{AreInterfaces};
    ghost use Rattle.eg_router.specs.Program.{router_semantics};
    ghost use Rattle.eg_router.specs.PromptLaws.{line_printed, obeyed_are};

    type Rules = Interfaces;

    type Names = OneDirectory;

    ghost means = { router_semantics };

    // Each interface has a name, which is the prompt of its mode.
    ghost keeps = { λ at. AreInterfaces at.interfaces };

    ghost kept = { λ at session are. obeyed_are (command_of session) at are };

    ghost prompts = { λ at are. line_printed at.mode at.interfaces are };

    fn grammar(&self) -> &Grammar {
        self.grammar.lend()
    }

    fn names(&self) -> &OneDirectory {
        &self.names
    }

    fn rules(&self) -> &Interfaces {
        &self.interfaces
    }

    #[tactic(auto, using(crate::proofs::Faultless::graph_nodes))]
    fn line(&self) -> Option<(u16, Prompt)> {
        match self.mode {
            Mode::User => Some((USER_LINES, prompt("router", ">"))),
            Mode::Privileged => Some((PRIVILEGED_LINES, prompt("router", "#"))),
            Mode::Configuration => Some((CONFIGURATION_LINES, prompt("router(config)", "#"))),
            Mode::Interface(at) => {
                Some((INTERFACE_LINES, prompt(self.interfaces.name_at(at), "#")))
            }
            Mode::Protocol => Some((PROTOCOL_LINES, prompt("router(config-router)", "#"))),
            Mode::Ended => None,
        }
    }

    fn obey<S: Sink>(&mut self, session: &Session, out: &mut Writer<'_, S>) {
        let command = command_of(session, self.grammar.lend());
        put_reply(&command, &self.interfaces, out);
        self.obey_command(command);
    }
}

// What a line is asked for with: a name and a mark.
fn prompt(name: &str, mark: &str) -> Prompt
    requires name { length name.now ≤ NAME_LIMIT }
    requires mark { length mark.now ≤ NAME_LIMIT }
    ensures { result ≡ prompt name.now mark.now }
{
    Prompt::Named(Label::of(&Name::new(name)), Label::of(&Name::new(mark)))
}
