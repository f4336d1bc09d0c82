// What a key makes of the line of a session.
ghost use Rattle.std.specs.Prelude.{◌≡◌, true, false, [], ◌++◌, None, unwrap_or, if◌then◌else◌};
ghost use Rattle.cm_text.specs.Bytes.{is_text};
ghost use Rattle.cm_text.specs.Text.{ends_in_hyphen};
ghost use Rattle.cm_line.specs.Keys.{is_end};
ghost use Rattle.cm_blocks.specs.KeptParse.{common};
ghost use Rattle.cm_blocks.specs.Parse.{open_at};
ghost use Rattle.cm_blocks.specs.Setting.{setting};
ghost use Rattle.cm_recognise.specs.Insertion.{insertion};
ghost use Rattle.cm_state.specs.Edit.{completion, edit};
ghost use Rattle.cm_state.specs.Front.{front};
ghost use Rattle.cm_state.specs.SessionState.{line_before, text_of};

use crate::Session;
use crate::held::open_at;
use cm_blocks::Grammar;
use cm_files::Names;
use cm_hooks::Rules;
use cm_line::KeyClass;
use cm_recognise::{Mode, complete};
use cm_text::common_len;

// What a key has made of a line.
#[derive(Drop)]
pub(crate) struct Change {
    // How many bytes the line before it and the text after it begin with alike.
    pub(crate) front: usize,
    // Whether a key that completes rings.
    pub(crate) rings_bell: bool,
}

impl Session {
    // A key after a finished text meets an empty line, of which nothing is known.
    pub(crate) fn reopen(&mut self)
        ensures { self.new ≡ record self.old {
          line = line_before self.old;
          is_finished = false;
          fields = if self.old.is_finished then [] else self.old.fields;
          ending = if self.old.is_finished then open_at self.old.node 0 else self.old.ending;
        } }
    {
        if self.is_finished {
            self.is_finished = false;
            self.line.cut(0);
            self.fields.clear();
            self.ending = open_at(self.node);
        }
    }

    // Edits the line by a key.
    pub(crate) fn apply_edit<N: Names, R: Rules>(
        &mut self,
        class: KeyClass,
        key: u8,
        grammar: &Grammar,
        names: &N,
        rules: &R,
    ) -> Change
        requires open { self.old.is_finished ≡ false }
        requires text { class ≡ KeyClass.Text → is_text key ≡ true }
        requires join { class ≡ KeyClass.Join → ends_in_hyphen self.old.line ≡ true }
        ensures edited { self.new ≡ record self.old {
          line = edit class key self.old.line self.old.recall
              (completion (setting grammar.now (N.catalogue names.now) (R.meanings rules.now))
              class self.old.fields self.old.ending self.old.line).bytes;
          is_finished = is_end class;
          recall = None;
        } }
        ensures front { result.front ≡ common self.old.line (text_of self.new) }
        ensures bell { result.rings_bell
            ≡ (completion (setting grammar.now (N.catalogue names.now) (R.meanings rules.now))
            class self.old.fields self.old.ending self.old.line).bell }
    {
        match class {
            KeyClass::Escape => self.insert(Mode::Escape, grammar, names, rules),
            KeyClass::Part => self.insert(Mode::Part, grammar, names, rules),
            _ => Change {
                front: self.edit_common(class, key),
                rings_bell: false,
            },
        }
    }

    // Puts in what completes the line.
    fn insert<N: Names, R: Rules>(
        &mut self,
        mode: Mode,
        grammar: &Grammar,
        names: &N,
        rules: &R,
    ) -> Change
        requires open { self.old.is_finished ≡ false }
        ensures inserted { self.new ≡ record self.old {
          line = self.old.line ++ (insertion (setting grammar.now (N.catalogue names.now) (R.meanings rules.now))
              self.old.fields self.old.ending self.old.line mode).bytes;
          recall = None;
        } }
        ensures front { result.front ≡ common self.old.line self.new.line }
        ensures bell { result.rings_bell
            ≡ (insertion (setting grammar.now (N.catalogue names.now) (R.meanings rules.now))
            self.old.fields self.old.ending self.old.line mode).bell }
    {
        let front = self.line.bytes().len();
        let insertion = complete(
            grammar,
            self.fields.places(),
            self.ending,
            self.line.bytes(),
            names,
            rules,
            mode,
        );
        self.line.append(insertion.bytes.as_slice());
        self.recall.forget();
        Change {
            front,
            rings_bell: insertion.bell,
        }
    }

    // Edits the line by a key that completes nothing. The answer is how many bytes the line before it and the text
    // after it begin with alike.
    #[tactic(auto, using(crate::proofs::Fronts::front_stays))]
    fn edit_common(&mut self, class: KeyClass, key: u8) -> usize
        requires open { self.old.is_finished ≡ false }
        requires text { class ≡ KeyClass.Text → is_text key ≡ true }
        requires join { class ≡ KeyClass.Join → ends_in_hyphen self.old.line ≡ true }
        ensures edited { self.new ≡ record self.old {
          line = edit class key self.old.line self.old.recall [];
          is_finished = is_end class;
          recall = None;
        } }
        ensures common { result ≡ common self.old.line (text_of self.new) }
    {
        let front = self.front(class);
        self.edit(class, key);
        front.min(self.line.bytes().len())
    }

    // The most bytes at the front of the line that a key of this class leaves.
    fn front(&self, class: KeyClass) -> usize
        ensures { result ≡ front class self.now.line self.now.recall }
    {
        match (class, self.recall.line()) {
            (KeyClass::Back, Some(line)) => common_len(self.line.bytes(), line.bytes()),
            (KeyClass::Join, _) => self.line.bytes().len().saturating_sub(1),
            _ => self.line.bytes().len(),
        }
    }

    // The line after a key that completes nothing, finished where the key is an end.
    fn edit(&mut self, class: KeyClass, key: u8)
        requires open { self.old.is_finished ≡ false }
        requires text { class ≡ KeyClass.Text → is_text key ≡ true }
        requires join { class ≡ KeyClass.Join → ends_in_hyphen self.old.line ≡ true }
        ensures { self.new ≡ record self.old {
          line = edit class key self.old.line self.old.recall [];
          is_finished = is_end class;
          recall = None;
        } }
    {
        match class {
            KeyClass::Text => {
                self.line.push(key);
            }
            KeyClass::Rub => {
                self.line.pop();
            }
            KeyClass::Word => self.line.cut(self.line.word_start()),
            KeyClass::Erase | KeyClass::Stop => self.line.cut(0),
            KeyClass::Back => self.restore(),
            KeyClass::Join => self.line.join(),
            KeyClass::End => self.is_finished = true,
            _ => {}
        }
        self.recall.forget();
    }

    // Brings back the line that control-H brings back, where there is one.
    fn restore(&mut self)
        ensures { self.new ≡ record self.old { line = unwrap_or self.old.recall self.old.line } }
    {
        if let Some(line) = self.recall.line() {
            self.line.set(line.bytes());
        }
    }
}
