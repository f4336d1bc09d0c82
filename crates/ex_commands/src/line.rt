// What a line commands, read off its fields.
ghost use Rattle.std.specs.Prelude.{◌≡◌, nat_lt, length, option_copied};
ghost use Rattle.cm_files.specs.Catalogue.{Catalogue};
ghost use Rattle.cm_blocks.specs.Parse.{IsParse};
ghost use Rattle.cm_blocks.specs.Setting.{setting};
ghost use Rattle.cm_blocks.specs.declared.field.Ending.TheVariants as ending;
ghost use Rattle.cm_state.specs.SessionState.{text_of};
ghost use Rattle.ex_grammar.specs.ExecRules.{exec_meanings};
ghost use Rattle.ex_grammar.specs.Graph.{exec_graph};
ghost use Rattle.ex_grammar.specs.declared.node.TheConstants.{COMMANDS};
ghost use Rattle.ex_commands.specs.Command.{added, command_of, complete, extended, named, subcommand_node, with_sub};
ghost use Rattle.ex_commands.specs.NameParts.{IsReadable, IsSaidIn, line_of};

use crate::Command;
use crate::commands::build::retention_with;
use crate::commands::directory::day_with;
use crate::commands::{
    append, build, connect, copy, define, delete, directory, expunge, information, print, rename,
    set, take, type_out, undelete,
};
use crate::fields::keyword_code;
use cm_blocks::{Field, Grammar, Role};
use cm_files::Names;
use cm_state::Session;
use ex_grammar::{
    APPEND, BEFORE, BUILD, CONNECT, COPY, DEFINE, DELETE, DELETED, DIRECTORY, EXPUNGE, INFORMATION,
    LOGOUT, PRINT, READ, REMARK, RENAME, SET, SINCE, TAKE, TYPE, UNDELETE,
};

impl Command {
    /// What the line that a session holds commands. The line is finished, and its parse from the first node of the
    /// EXEC's grammar on, under these names, is held and done.
    #[tactic(auto, unfolding(crate::specs::Command::command_of))]
    pub fn of<N: Names>(session: &Session, grammar: &Grammar, names: &N) -> Command
        requires exec { grammar.now ≡ exec_graph }
        requires parse { IsParse (setting exec_graph (N.catalogue names.now) exec_meanings) COMMANDS
            (text_of session.now) session.now.fields ending.Done }
        // [command]
        ensures { result ≡ command_of (record {
          graph = exec_graph;
          catalogue = N.catalogue names.now;
          text = text_of session.now;
          fields = session.now.fields;
        }) }
    {
        match session.field_of(Role::Verb) {
            Some(verb) => named(keyword_code(verb.value()), session, grammar, names),
            None => Command::Empty,
        }
    }

    /// Adds what the subcommand line that a session holds says. The line is finished, and its parse from the
    /// subcommand node of this command on is held and done. A subcommand that is given twice counts as last given.
    /// False exactly where the line is empty: it has no field, and the command waits for no more.
    pub fn add_sub(&mut self, session: &Session) -> bool
        requires parse { (c : Catalogue) × IsParse (setting exec_graph c exec_meanings) (subcommand_node self.old)
            (text_of session.now) session.now.fields ending.Done }
        ensures more { result ≡ nat_lt 0 (length session.now.fields) }
        ensures command { self.new ≡ added session.now.fields self.old }
    {
        if session.held() == 0 {
            self.complete();
            return false;
        }
        self.extend(session);
        true
    }

    /// Waits for no more subcommands, as after an empty line of them.
    pub fn complete(&mut self)
        ensures { self.new ≡ complete self.old }
    {
        match self {
            Command::Build { sub, .. } => *sub = false,
            Command::Directory { sub, .. } => *sub = false,
            _ => {}
        }
    }

    // Adds what a line says that has a field.
    fn extend(&mut self, session: &Session)
        requires { IsReadable session.now.fields }
        ensures { self.new ≡ extended session.now.fields self.old }
    {
        if let Some(verb) = session.field_of(Role::Verb) {
            let said = session.field_of(Role::Value);
            self.add(keyword_code(verb.value()), said);
        }
    }

    // Adds a subcommand of this code, with its value.
    fn add(&mut self, code: u16, said: Option<&Field>)
        requires { IsSaidIn (option_copied said) }
        ensures { self.new ≡ with_sub code (option_copied said.entry) self.old }
    {
        match self {
            Command::Build { retention, .. } => *retention = retention_with(code, said, *retention),
            Command::Directory {
                since,
                before,
                deleted,
                read,
                ..
            } => {
                *since = day_with(code == SINCE, said, *since);
                *before = day_with(code == BEFORE, said, *before);
                *deleted = code == DELETED || *deleted;
                *read = code == READ || *read;
            }
            _ => {}
        }
    }
}

// The command that the keyword of this code names, with what its other fields say.
fn named<N: Names>(verb: u16, session: &Session, grammar: &Grammar, names: &N) -> Command
    requires { IsReadable session.now.fields }
    ensures { result ≡ named (line_of grammar.now (N.catalogue names.now) session.now) verb }
{
    match verb {
        APPEND => append::read(session, grammar, names),
        BUILD => build::read(session, grammar, names),
        CONNECT => connect::read(session, grammar, names),
        COPY => copy::read(session, grammar, names),
        DEFINE => define::read(session, grammar, names),
        DELETE => delete::read(session, grammar, names),
        DIRECTORY => directory::read(session, grammar, names),
        EXPUNGE => expunge::read(session, grammar, names),
        INFORMATION => information::read(session),
        LOGOUT => Command::Logout,
        PRINT => print::read(session, grammar, names),
        REMARK => Command::Remark,
        RENAME => rename::read(session, grammar, names),
        SET => set::read(session, grammar, names),
        TAKE => take::read(session, grammar, names),
        TYPE => type_out::read(session, grammar, names),
        UNDELETE => undelete::read(session, grammar, names),
        _ => Command::Empty,
    }
}
