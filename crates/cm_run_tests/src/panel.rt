// A program of two grammars: ENABLE goes from the ordinary one to the other, and DISABLE back.
ghost use Rattle.std.specs.Prelude.{◌≡◌};
ghost use Rattle.cm_io.specs.Pieces.{shown_lines};
ghost use Rattle.cm_io.specs.Writer.{Writes};
ghost use Rattle.cm_run_tests.specs.Panel.{code_of, is_enabled_after, reply};

use cm_blocks::{Grammar, Role};
use cm_fields::Value;
use cm_files::OneDirectory;
use cm_hooks::NoRules;
use cm_io::{Sink, Writer};
use cm_run::LineProgram;
use cm_state::{Prompt, Session};

// The codes of the commands.
pub(crate) const DISABLE: u16 = 1;

pub(crate) const ENABLE: u16 = 2;

pub(crate) const ERASE: u16 = 3;

// Who makes a panel gives it both grammars.
#[derive(Drop)]
pub(crate) struct Panel {
    pub(crate) ordinary: Grammar,
    pub(crate) enabled: Grammar,
    pub(crate) names: OneDirectory,
    pub(crate) is_enabled: bool,
}

// The code of the command, or 0 where the line is empty.
fn code_of(session: &Session) -> u16
    ensures { result ≡ code_of session.now }
{
    match session.value_of(Role::Verb) {
        Some(Value::Key { code, .. }) => code,
        _ => 0,
    }
}

fn is_enabled_after(code: u16, was: bool) -> bool
    ensures { result ≡ is_enabled_after code was }
{
    match code {
        ENABLE => true,
        DISABLE => false,
        _ => was,
    }
}

#[tactic(auto, using(cm_io::proofs::Texts::lines), unfolding(crate::specs::Panel::erased))]
fn put_reply<S: Sink>(code: u16, out: &mut Writer<'_, S>)
    ensures { Writes S.Sink out.old out.new (shown_lines (reply code)) }
{
    if code == ERASE {
        out.put_line(b"erased");
    }
}

impl LineProgram for Panel {
    ghost use Rattle.std.specs.Prelude.{◌==◌, length};
    ghost use Rattle.cm_run.specs.PromptLaws.{main_until};
    ghost use Rattle.cm_run_tests.specs.Panel.{graph_now, panel_semantics};

    type Rules = NoRules;

    type Names = OneDirectory;

    ghost means = { panel_semantics };

    ghost keeps = { λ at. Unit {0} };

    ghost kept = { λ at session kept. kept };

    ghost prompts = { λ at kept. main_until (length (graph_now at).nodes == 0) 0 };

    fn grammar(&self) -> &Grammar {
        if self.is_enabled {
            &self.enabled
        } else {
            &self.ordinary
        }
    }

    fn names(&self) -> &OneDirectory {
        &self.names
    }

    fn rules(&self) -> &NoRules {
        &NoRules
    }

    fn line(&self) -> Option<(u16, Prompt)> {
        if self.grammar().nodes() == 0 {
            None
        } else {
            Some((0, Prompt::Main))
        }
    }

    fn obey<S: Sink>(&mut self, session: &Session, out: &mut Writer<'_, S>) {
        let code = code_of(session);
        put_reply(code, out);
        self.is_enabled = is_enabled_after(code, self.is_enabled);
    }
}
