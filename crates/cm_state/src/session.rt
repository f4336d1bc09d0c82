// A session: the line under edit, and the parse of it that is held.
ghost use Rattle.std.specs.Prelude.{◌≡◌, ◌+◌, ◌≤◌, ◌<◌, true, false, length, None, if◌then◌else◌};
ghost use Rattle.cm_text.specs.Bytes.{is_text};
ghost use Rattle.cm_text.specs.Text.{ends_in_hyphen};
ghost use Rattle.cm_line.specs.Keys.{class_at};
ghost use Rattle.cm_io.specs.Contents.{Adds};
ghost use Rattle.cm_io.specs.Fault.{PutCause};
ghost use Rattle.cm_io.specs.Writer.{Writes};
ghost use Rattle.cm_blocks.specs.Fault.{grammar_fault};
ghost use Rattle.cm_blocks.specs.KeptParse.{BeginsWith, cost, decided_within, kept};
ghost use Rattle.cm_blocks.specs.Parse.{IsParse, open_at};
ghost use Rattle.cm_blocks.specs.Setting.{Setting, setting};
ghost use Rattle.cm_state.specs.Edit.{completed, edited};
ghost use Rattle.cm_state.specs.Echo.{echo, echo_of, prompt_text, takes_join};
ghost use Rattle.cm_state.specs.SessionState.{SessionState, IsReady, at_start, line_before, text_of};
ghost use Rattle.cm_state.specs.Log.{log_line};
ghost use Rattle.cm_state.specs.Turn.{put_of, turn_of};

use crate::echo::{
    put_again, put_end, put_help_and_line, put_inserted, put_prompt, put_screen_line, put_taken,
    takes_join,
};
use crate::held::open_at;
use crate::log::{put_ending, put_fields, put_marked};
use crate::recall::Recall;
use crate::stack::Stack;
use crate::{Prompt, Turn};
use cm_blocks::{Ending, Grammar, Steps};
use cm_files::Names;
use cm_hooks::Rules;
use cm_io::{Put, Sink, Writer};
use cm_line::{KeyClass, Line};
use cm_text::{LINE_LIMIT, bell, control_c, end_of_line, screen_byte};
use std::marker::Model;
use std::sync::ledger::Ledger;

mod again;
mod editing;
mod view;

// A key and the line that it met: of which size, whether a join byte goes, and whether control-H had a line to bring
// back. A key that completed the line rings or not.
#[derive(Drop)]
struct Keystroke {
    class: KeyClass,
    key: u8,
    size: usize,
    joins: bool,
    restores: bool,
    rings_bell: bool,
}

/// A command line: the line under edit, its parse as it then stands, and what control-H may bring back.
#[derive(Drop)]
pub struct Session {
    node: u16,
    prompt: Prompt,
    line: Line,
    is_finished: bool,
    fields: Stack,
    ending: Ending,
    recall: Recall,
}

impl Model for Session {
    ghost use Rattle.cm_state.specs.Front.{front};
    ghost use Rattle.cm_state.specs.SessionState.{SessionState};

    ghost Value = { SessionState };

    ghost view = { λ s. record {
      node = s.node;
      prompt = s.prompt;
      line = s.line;
      is_finished = s.is_finished;
      fields = s.fields;
      ending = s.ending;
      recall = s.recall;
    } };
}

impl Session {
    /// A session at its start: an empty line from node 0 on, and nothing that control-H would bring back.
    pub fn new() -> Session
        ensures session { result ≡ at_start 0 Prompt.Main None }
        // It is ready for a key under every grammar.
        ensures ready { (s : Setting) → grammar_fault s.graph ≡ None → IsReady s result }
    {
        Session::started()
    }

    /// Begins a line: shows the prompt, and puts the session at the start of the node, also where the sink
    /// fails. What control-H brings back stays.
    #[tactic(auto, using(cm_io::proofs::Writers::finish_puts))]
    pub fn begin<S: Sink>(&mut self, node: u16, prompt: Prompt, sink: &mut S) -> Put
        ensures session { self.new ≡ at_start node prompt self.old.recall }
        // It is ready for a key under every grammar that has the node.
        ensures ready { (s : Setting) → grammar_fault s.graph ≡ None → node < length s.graph.nodes
            → IsReady s self.new }
        // [prompt]
        ensures bytes { Adds (S.contents sink.old) (S.contents sink.new) (prompt_text prompt) result }
        ensures later { S.faults sink.old ≤ S.faults sink.new }
        ensures cause { PutCause (S.faults sink.old) (S.faults sink.new) result }
    {
        self.start(node, prompt);
        let mut out = Writer::new(sink);
        put_prompt(&self.prompt, &mut out);
        out.finish()
    }

    /// Takes one key: edits the line, holds the parse of the text as it then stands, and shows the echo. The fields
    /// that the unchanged front of the text decides are kept, and only what follows is tried.
    ///
    /// The answer is Confirmed exactly where the key finishes a line whose parse is done, Refused exactly
    /// where it finishes one whose parse ends in that fault, Abandoned exactly at control-C. CR and LF finish no line
    /// that ends in a hyphen, but continue it. It is Failed only where the sink failed; the session is then where the
    /// key left it, and the counter has risen as ever.
    #[tactic(auto, using(cm_io::proofs::Writers::finish_puts), unfolding(crate::specs::Echo::echo))]
    pub fn key<N: Names, R: Rules, S: Sink, L: Ledger>(
        &mut self,
        key: u8,
        grammar: &Grammar,
        names: &N,
        rules: &R,
        sink: &mut S,
        steps: &mut Steps<L>,
    ) -> Turn
        requires ready { IsReady (setting grammar.now (N.catalogue names.now) (R.meanings rules.now)) self.old }
        // [key-line] [key-parse] The line, what control-H brings back, and the parse after the key.
        ensures edited { self.new ≡ edited (setting grammar.now (N.catalogue names.now) (R.meanings rules.now))
            self.old key }
        // [key-parse] What is held is the parse of the whole text.
        ensures parse { IsParse (setting grammar.now (N.catalogue names.now) (R.meanings rules.now))
            self.new.node (text_of self.new) self.new.fields self.new.ending }
        ensures ready { IsReady (setting grammar.now (N.catalogue names.now) (R.meanings rules.now)) self.new }
        // It begins with the fields that the unchanged front decides.
        ensures keeps { BeginsWith (kept (setting grammar.now (N.catalogue names.now) (R.meanings rules.now))
            self.old.node (line_before self.old) (text_of self.new)) self.new.fields }
        // [key-turn]
        ensures turn { put_of result ≡ Put.Done
            → result ≡ turn_of (class_at (line_before self.old) key) self.new.ending }

        // [key-echo] What the key shows.
        ensures bytes { Adds (S.contents sink.old) (S.contents sink.new)
            (echo (setting grammar.now (N.catalogue names.now) (R.meanings rules.now)) self.old key) (put_of result) }
        ensures later { S.faults sink.old ≤ S.faults sink.new }
        ensures cause { PutCause (S.faults sink.old) (S.faults sink.new) (put_of result) }

        // What the trials cost after the fields that are kept: that of the ending alone where the line stays.
        ensures steps { steps.new ≡ steps.old + cost
            (setting grammar.now (N.catalogue names.now) (R.meanings rules.now))
            self.old.node (line_before self.old) (text_of self.new) }
    {
        let class = self.class(key);
        let size = self.met_size();
        let joins = self.takes_join(class);
        let restores = self.recall.is_some();
        let rings_bell = self.edit_and_parse(class, key, grammar, names, rules, steps);
        let keystroke = Keystroke {
            class,
            key,
            size,
            joins,
            restores,
            rings_bell,
        };
        let mut out = Writer::new(sink);
        self.echo(keystroke, grammar, names, rules, &mut out);
        match out.finish() {
            Put::Done => self.turn(class),
            Put::Failed => Turn::Failed,
        }
    }

    /// Puts the line of the log that tells of a key and of the parse held after it: the key, the length of
    /// the line, the ending and each field.
    #[tactic(auto, using(cm_io::proofs::Writers::finish_puts))]
    pub fn log_line<S: Sink>(&self, key: u8, sink: &mut S) -> Put
        // [log-line]
        ensures bytes { Adds (S.contents sink.old) (S.contents sink.new) (log_line key self.now) result }
        ensures later { S.faults sink.old ≤ S.faults sink.new }
        ensures cause { PutCause (S.faults sink.old) (S.faults sink.new) result }
    {
        let mut out = Writer::new(sink);
        self.put_log(key, &mut out);
        out.finish()
    }

    // A session at its start.
    fn started() -> Session
        ensures { result ≡ at_start 0 Prompt.Main None }
    {
        Session {
            node: 0,
            prompt: Prompt::Main,
            line: Line::new(),
            is_finished: false,
            fields: Stack::new(),
            ending: open_at(0),
            recall: Recall::new(),
        }
    }

    // Puts the session at the start of a node.
    fn start(&mut self, node: u16, prompt: Prompt)
        ensures { self.new ≡ at_start node prompt self.old.recall }
    {
        self.node = node;
        self.prompt = prompt;
        self.line.cut(0);
        self.is_finished = false;
        self.fields.clear();
        self.ending = open_at(node);
    }

    // The class of a key on the line that it meets.
    #[tactic(auto, using(cm_line::proofs::ClassLaws::class_at_none, cm_line::proofs::ClassLaws::none_joins))]
    fn class(&self, key: u8) -> KeyClass
        ensures value { result ≡ class_at (line_before self.now) key }
        ensures text { result ≡ KeyClass.Text → is_text key ≡ true }
        ensures join { result ≡ KeyClass.Join → ends_in_hyphen (line_before self.now) ≡ true }
    {
        if self.is_finished {
            KeyClass::of(key)
        } else {
            self.line.class(key)
        }
    }

    // Whether a key of this class takes a join byte away from the line that it meets.
    #[tactic(auto, using(crate::proofs::ScreenLines::nothing_goes))]
    fn takes_join(&self, class: KeyClass) -> bool
        ensures { result ≡ takes_join class (line_before self.now) }
    {
        if self.is_finished {
            false
        } else {
            takes_join(class, &self.line)
        }
    }

    // The size of the line that a key meets.
    fn met_size(&self) -> usize
        ensures value { result ≡ length (line_before self.now) }
        ensures within { result ≤ LINE_LIMIT }
    {
        if self.is_finished {
            0
        } else {
            self.line.bytes().len()
        }
    }

    // Edits the line by a key, and holds the parse of the text as it then stands. The answer is whether a key that
    // completes rings.
    fn edit_and_parse<N: Names, R: Rules, L: Ledger>(
        &mut self,
        class: KeyClass,
        key: u8,
        grammar: &Grammar,
        names: &N,
        rules: &R,
        steps: &mut Steps<L>,
    ) -> bool
        requires class { class ≡ class_at (line_before self.old) key }
        requires text { class ≡ KeyClass.Text → is_text key ≡ true }
        requires join { class ≡ KeyClass.Join → ends_in_hyphen (line_before self.old) ≡ true }
        requires ready { IsReady (setting grammar.now (N.catalogue names.now) (R.meanings rules.now)) self.old }
        ensures edited { self.new ≡ edited (setting grammar.now (N.catalogue names.now) (R.meanings rules.now))
            self.old key }
        ensures parse { IsParse (setting grammar.now (N.catalogue names.now) (R.meanings rules.now))
            self.new.node (text_of self.new) self.new.fields self.new.ending }
        ensures ready { IsReady (setting grammar.now (N.catalogue names.now) (R.meanings rules.now)) self.new }
        ensures keeps { BeginsWith (kept (setting grammar.now (N.catalogue names.now) (R.meanings rules.now))
            self.old.node (line_before self.old) (text_of self.new)) self.new.fields }
        ensures bell { result
            ≡ (completed (setting grammar.now (N.catalogue names.now) (R.meanings rules.now)) self.old class).bell }
        ensures steps { steps.new ≡ steps.old + cost
            (setting grammar.now (N.catalogue names.now) (R.meanings rules.now))
            self.old.node (line_before self.old) (text_of self.new) }
    {
        grammar.has_no_fault();
        self.reopen();
        let change = self.apply_edit(class, key, grammar, names, rules);
        self.truncate(change.front);
        self.reparse(grammar, names, rules, steps);
        change.rings_bell
    }

    // Keeps the fields before the first that needs more than so many bytes.
    fn truncate(&mut self, size: usize)
        ensures { self.new ≡ record self.old { fields = decided_within size self.old.fields } }
    {
        self.fields.truncate(size);
    }

    // Shows the echo of a key.
    fn echo<N: Names, R: Rules, S: Sink>(
        &self,
        keystroke: Keystroke,
        grammar: &Grammar,
        names: &N,
        rules: &R,
        out: &mut Writer<'_, S>,
    )
        requires size { keystroke.size ≤ LINE_LIMIT }
        ensures { Writes S.Sink out.old out.new
            (echo_of (setting grammar.now (N.catalogue names.now) (R.meanings rules.now))
            keystroke.class keystroke.key keystroke.size keystroke.joins keystroke.restores
            keystroke.rings_bell self.now) }
    {
        let line = self.line.bytes();
        let after = &line[keystroke.size.min(line.len())..];
        match keystroke.class {
            KeyClass::Text if keystroke.size < LINE_LIMIT => out.put(&[screen_byte(keystroke.key)]),
            KeyClass::Rub | KeyClass::Word | KeyClass::Erase => {
                put_taken(keystroke.joins, &self.prompt, keystroke.size, line, out)
            }
            KeyClass::Show => put_again(&self.prompt, line, out),
            KeyClass::Help => put_help_and_line(
                grammar,
                self.fields.places(),
                self.ending,
                &self.prompt,
                line,
                names,
                rules,
                out,
            ),
            KeyClass::Back if keystroke.restores => put_screen_line(line, out),
            KeyClass::Escape => put_inserted(after, keystroke.rings_bell, out),
            KeyClass::Part => put_inserted(after, keystroke.rings_bell, out),
            KeyClass::Stop => out.put_line(control_c()),
            KeyClass::Join => out.put(end_of_line()),
            KeyClass::End => put_end(grammar, line, self.ending, out),
            _ => out.put(bell()),
        }
    }

    // Puts the line of the log.
    #[tactic(auto, using(cm_io::proofs::Texts::texts), unfolding(crate::specs::Log::log_line))]
    fn put_log<S: Sink>(&self, key: u8, out: &mut Writer<'_, S>)
        ensures { Writes S.Sink out.old out.new (log_line key self.now) }
    {
        out.put_hex(key);
        put_marked(b" ", self.line.bytes().len() as u64, out);
        put_ending(self.ending, out);
        put_fields(&self.fields, out);
        out.put(b"\n");
    }

    // The outcome of a key of this class.
    fn turn(&self, class: KeyClass) -> Turn
        ensures value { result ≡ turn_of class self.now.ending }
        ensures done { put_of result ≡ Put.Done }
    {
        match (class, self.ending) {
            (KeyClass::End, Ending::Done) => Turn::Confirmed,
            (KeyClass::End, Ending::Fault(fault)) => Turn::Refused(fault),
            (KeyClass::Stop, _) => Turn::Abandoned,
            _ => Turn::Edited,
        }
    }
}
