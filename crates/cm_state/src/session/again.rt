// A whole line at once, and a text that is parsed or shown again.
ghost use Rattle.std.specs.Prelude.{◌≡◌, ◌+◌, ◌≤◌, ◌<◌, true, [], length, None, if◌then◌else◌};
ghost use Rattle.cm_text.specs.Text.{IsLine, finished};
ghost use Rattle.cm_text.specs.declared.text.TheConstants.{LINE_LIMIT};
ghost use Rattle.cm_io.specs.Contents.{Adds};
ghost use Rattle.cm_io.specs.Fault.{PutCause};
ghost use Rattle.cm_blocks.specs.KeptParse.{cost, cost_after};
ghost use Rattle.cm_blocks.specs.Parse.{IsClosed, IsParse, parse_of};
ghost use Rattle.cm_blocks.specs.Setting.{setting};
ghost use Rattle.cm_state.specs.Edit.{before_fault, edited_as, parsed_again};
ghost use Rattle.cm_state.specs.Echo.{with_prompt};
ghost use Rattle.cm_state.specs.SessionState.{IsReady, at_start, line_before, parse_held, text_of};
ghost use Rattle.cm_state.specs.Stack.{Starts};
ghost use Rattle.cm_state.specs.Turn.{turn_of};

use crate::echo::put_with_prompt;
use crate::held::{hold_before_fault, text_of};
use crate::parse::parse_rest;
use crate::{Session, Turn};
use cm_blocks::{Grammar, Steps};
use cm_files::Names;
use cm_hooks::Rules;
use cm_io::{Put, Sink, Writer};
use cm_line::KeyClass;
use std::sync::ledger::Ledger;

impl Session {
    /// Takes a whole line and finishes it, whatever its last byte, as `begin` at the node and then its keys and CR do
    /// with a line that ends in no hyphen: holds its parse, and shows nothing. The prompt stays.
    ///
    /// The answer is Confirmed exactly where the parse is done, and else Refused with its fault.
    pub fn whole<N: Names, R: Rules, L: Ledger>(
        &mut self,
        node: u16,
        line: &[u8],
        grammar: &Grammar,
        names: &N,
        rules: &R,
        steps: &mut Steps<L>,
    ) -> Turn
        requires line { IsLine line.now }
        requires node { node < length grammar.now.nodes }
        // It is as after a CR that finishes that line, whatever its last byte.
        ensures edited { self.new ≡ edited_as (setting grammar.now (N.catalogue names.now) (R.meanings rules.now))
            (record (at_start node self.old.prompt self.old.recall) { line = line.now }) KeyClass.End 13 }
        ensures parse { IsParse (setting grammar.now (N.catalogue names.now) (R.meanings rules.now))
            node (finished line.now) self.new.fields self.new.ending }
        ensures ready { IsReady (setting grammar.now (N.catalogue names.now) (R.meanings rules.now)) self.new }
        ensures decided { IsClosed self.new.ending }
        // [whole-line]
        ensures turn { result ≡ turn_of KeyClass.End self.new.ending }
        ensures steps { steps.new ≡ steps.old
            + cost (setting grammar.now (N.catalogue names.now) (R.meanings rules.now)) node [] (finished line.now) }
    {
        grammar.has_no_fault();
        self.start(node, self.prompt);
        self.finish(line);
        self.reparse(grammar, names, rules, steps);
        self.turn(KeyClass::End)
    }

    /// Parses the text afresh, where the catalogue or the rules have changed since its last key: a file, a directory or
    /// a name of the program's own has come or gone. It shows nothing. Prompt and line stay, and the line stays
    /// finished where it is. What control-H brings back stays too, but after a finished line, where it is as that
    /// line's end would leave it now.
    pub fn parse_again<N: Names, R: Rules, L: Ledger>(
        &mut self,
        grammar: &Grammar,
        names: &N,
        rules: &R,
        steps: &mut Steps<L>,
    )
        requires node { self.old.node < length grammar.now.nodes }
        ensures session { self.new ≡ parsed_again (setting grammar.now (N.catalogue names.now) (R.meanings rules.now))
            self.old }
        // What is held is the parse of the whole text.
        ensures parse { IsParse (setting grammar.now (N.catalogue names.now) (R.meanings rules.now))
            self.new.node (text_of self.new) self.new.fields self.new.ending }
        ensures ready { IsReady (setting grammar.now (N.catalogue names.now) (R.meanings rules.now)) self.new }
        // It costs what the whole text costs, of which nothing is known.
        ensures steps { steps.new ≡ steps.old
            + cost (setting grammar.now (N.catalogue names.now) (R.meanings rules.now)) self.old.node []
            (text_of self.old) }
    {
        grammar.has_no_fault();
        self.forget_fields();
        self.parse_after(grammar, names, rules, steps);
        self.hold_refused();
    }

    /// Shows the prompt and the line, as control-R does on a screen that is at the front of a row: for a program
    /// that has shown something else in the midst of a line, and has ended that row.
    #[tactic(auto, using(cm_io::proofs::Writers::finish_puts))]
    pub fn show<S: Sink>(&self, sink: &mut S) -> Put
        ensures bytes { Adds (S.contents sink.old) (S.contents sink.new)
            (with_prompt self.now.prompt (line_before self.now)) result }
        ensures later { S.faults sink.old ≤ S.faults sink.new }
        ensures cause { PutCause (S.faults sink.old) (S.faults sink.new) result }
    {
        let mut out = Writer::new(sink);
        put_with_prompt(&self.prompt, self.line_before(), &mut out);
        out.finish()
    }

    // The line that a key meets.
    fn line_before(&self) -> &[u8]
        ensures value { result.now ≡ line_before self.now }
        ensures within { length result.now ≤ LINE_LIMIT }
    {
        if self.is_finished {
            b""
        } else {
            self.line.bytes()
        }
    }

    // Forgets the fields that are held.
    fn forget_fields(&mut self)
        ensures { self.new ≡ record self.old { fields = [] } }
    {
        self.fields.clear();
    }

    // Holds the parse of the text, which begins with the fields that are held.
    fn parse_after<N: Names, R: Rules, L: Ledger>(
        &mut self,
        grammar: &Grammar,
        names: &N,
        rules: &R,
        steps: &mut Steps<L>,
    )
        requires starts { Starts (setting grammar.now (N.catalogue names.now) (R.meanings rules.now))
            self.old.node (text_of self.old) self.old.fields }
        ensures parse { parse_held self.new
            ≡ parse_of (setting grammar.now (N.catalogue names.now) (R.meanings rules.now)) self.old.node
            (text_of self.old) }
        ensures same { self.new ≡ record self.old { fields = self.new.fields; ending = self.new.ending } }
        ensures steps { steps.new ≡ steps.old + cost_after
            (setting grammar.now (N.catalogue names.now) (R.meanings rules.now))
            self.old.node (text_of self.old) self.old.fields }
    {
        let text = text_of(&self.line, self.is_finished);
        self.ending = parse_rest(
            grammar,
            self.node,
            text,
            names,
            rules,
            &mut self.fields,
            steps,
        );
    }

    // After a finished line holds of a refused one the bytes before its faulty field, and of any other nothing.
    fn hold_refused(&mut self)
        ensures { self.new ≡ record self.old {
          recall = if self.old.is_finished
              then before_fault self.old.line self.old.ending else self.old.recall;
        } }
    {
        if self.is_finished {
            hold_before_fault(true, &self.line, self.ending, &mut self.recall);
        }
    }

    // Finishes this line in place of that under edit.
    fn finish(&mut self, line: &[u8])
        requires { IsLine line.now }
        ensures { self.new ≡ record self.old { line = line.now; is_finished = true; recall = None } }
    {
        self.line.set(line);
        self.is_finished = true;
        self.recall.forget();
    }

    // Holds the parse of the text, which begins with the fields that are held. After a refused line control-H brings
    // back the bytes before its faulty field.
    pub(crate) fn reparse<N: Names, R: Rules, L: Ledger>(
        &mut self,
        grammar: &Grammar,
        names: &N,
        rules: &R,
        steps: &mut Steps<L>,
    )
        requires starts { Starts (setting grammar.now (N.catalogue names.now) (R.meanings rules.now))
            self.old.node (text_of self.old) self.old.fields }
        ensures parse { parse_held self.new
            ≡ parse_of (setting grammar.now (N.catalogue names.now) (R.meanings rules.now)) self.old.node
            (text_of self.old) }
        ensures recall { self.new.recall
            ≡ (if self.old.is_finished then before_fault self.old.line self.new.ending else None) }
        ensures same { self.new
            ≡ record self.old { fields = self.new.fields; ending = self.new.ending; recall = self.new.recall } }
        ensures steps { steps.new ≡ steps.old + cost_after
            (setting grammar.now (N.catalogue names.now) (R.meanings rules.now))
            self.old.node (text_of self.old) self.old.fields }
    {
        self.parse_after(grammar, names, rules, steps);
        hold_before_fault(self.is_finished, &self.line, self.ending, &mut self.recall);
    }
}
