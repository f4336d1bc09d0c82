// What an author of a command program brings.
use crate::{Mode, Stop};
use cm_blocks::Grammar;
use cm_files::Names;
use cm_hooks::Rules;
use cm_io::{Put, Sink};
use cm_state::Session;

/// A command program, as the engine runs it: what its lines are parsed under, and what they do. An application parses
/// nothing itself, and it asks for no key: `run` does, and hands it each line that is confirmed. A program that acts by
/// lines alone need only be a `LineProgram`.
pub trait Application {
    ghost use Rattle.std.specs.Prelude.{◌≡◌, ◌≤◌, IfSome, option_copied};
    ghost use Rattle.cm_text.specs.Text.{IsLine};
    ghost use Rattle.cm_io.specs.Fault.{PutCause};
    ghost use Rattle.cm_io.specs.Contents.{Adds};
    ghost use Rattle.cm_blocks.specs.Parse.{IsParse};
    ghost use Rattle.cm_blocks.specs.declared.field.Ending.TheVariants as ending;
    ghost use Rattle.cm_state.specs.SessionState.{text_of};
    ghost use Rattle.cm_run.specs.Cause.{ObeyCause};
    ghost use Rattle.cm_run.specs.Semantics.{IsLineAt, IsModeOf, Semantics, setting_of};
    ghost use Rattle.cm_run.specs.Obey.{Obeys, stage};

    /// What it says of its own kinds of field.
    type Rules: Rules;

    /// The directories and files that its lines may name.
    type Names: Names;

    /// What it means.
    ghost means: { Semantics Self };

    /// The grammar that a line is parsed under now.
    fn grammar(&self) -> &Grammar
        ensures { result.now ≡ means.graph_of self.now };

    /// The directories and files that a line may name now.
    fn names(&self) -> &Self::Names
        ensures { Self.Names.catalogue result.now ≡ means.catalogue_of self.now };

    /// What it says now of its own kinds of field.
    fn rules(&self) -> &Self::Rules
        ensures { Self.Rules.meanings result.now ≡ means.rules_of self.now };

    /// What the next key is for.
    fn mode(&self) -> Mode
        ensures mode { result ≡ means.mode_of self.now }
        ensures node { IsModeOf (means.graph_of self.now) result };

    /// Does what a confirmed line commands, at this moment, and shows the replies. Where it is Ended or Raw by then,
    /// the application has become that before it puts its reply.
    fn obey_line<S: Sink>(
        &mut self,
        session: &Session,
        moment: u64,
        screen: &mut S,
    ) -> Result<(), Stop>
        requires line { IsLineAt (means.mode_of self.old) session.now.node }
        requires parse { IsParse (setting_of means self.old) session.now.node (text_of session.now)
            session.now.fields ending.Done }
        ensures obeys { Obeys (stage (S.contents screen.old) self.old) (stage (S.contents screen.new) self.new)
            (means.line_effects self.old session.now moment) result }
        ensures later { S.faults screen.old ≤ S.faults screen.new }
        ensures cause { ObeyCause (S.faults screen.old) (S.faults screen.new) result };

    /// A line was refused by the parser, and why is shown.
    fn refuse(&mut self)
        // [refused-line]
        ensures { self.new ≡ means.refusal self.old };

    /// A line was given up.
    fn abandon(&mut self)
        ensures { self.new ≡ means.abandonment self.old };

    /// Shows what a raw key does, and does nothing yet.
    fn echo_raw<S: Sink>(&self, key: u8, screen: &mut S) -> Put
        ensures bytes { Adds (S.contents screen.old) (S.contents screen.new) (means.raw_echo self.now key) result }
        ensures later { S.faults screen.old ≤ S.faults screen.new }
        ensures cause { PutCause (S.faults screen.old) (S.faults screen.new) result };

    /// Takes a raw key.
    fn obey_raw<S: Sink>(&mut self, key: u8, screen: &mut S) -> Result<(), Stop>
        ensures obeys { Obeys (stage (S.contents screen.old) self.old) (stage (S.contents screen.new) self.new)
            (means.raw_effects self.old key) result }
        ensures later { S.faults screen.old ≤ S.faults screen.new }
        ensures cause { ObeyCause (S.faults screen.old) (S.faults screen.new) result };

    /// The next line of a command file, where one waits.
    fn file_line(&self) -> Option<&[u8]>
        ensures value { option_copied result ≡ means.file_line self.now }
        ensures line { IfSome (option_copied result) IsLine };

    /// Does what that line says, which was parsed so: what it commands, or where its parse ends in a fault its
    /// refusal. The moment is that of the line that took the file.
    fn obey_file_line<S: Sink>(
        &mut self,
        session: &Session,
        moment: u64,
        screen: &mut S,
    ) -> Result<(), Stop>
        requires line { IsLineAt (means.mode_of self.old) session.now.node }
        requires parse { IsParse (setting_of means self.old) session.now.node (text_of session.now)
            session.now.fields session.now.ending }
        // [joined-line] What is done is that of the line that waited, whose rows its hyphens have joined.
        ensures obeys { Obeys (stage (S.contents screen.old) self.old) (stage (S.contents screen.new) self.new)
            (means.file_line_effects self.old session.now moment) result }
        ensures later { S.faults screen.old ≤ S.faults screen.new }
        ensures cause { ObeyCause (S.faults screen.old) (S.faults screen.new) result };
}
