//! Laws of sessions and of editing.
ghost use Rattle.std.specs.Prelude.{◌≡◌, ◌<◌, ◌≤◌, ℕ, List, [], ◌++◌, None, Option, IfSome, length};
ghost use Rattle.cm_text.specs.Text.{IsLine};
ghost use Rattle.cm_text.specs.declared.name.TheConstants.{NAME_LIMIT};
ghost use Rattle.cm_line.specs.Keys.{class_at};
ghost use Rattle.cm_files.specs.Catalogue.{IsCatalogue};
ghost use Rattle.cm_hooks.specs.Meanings.{IsLawful};
ghost use Rattle.cm_blocks.specs.Fault.{grammar_fault};
ghost use Rattle.cm_blocks.specs.KeptParse.{BeginsWith, kept};
ghost use Rattle.cm_blocks.specs.Parse.{IsParse, open_at, parse_of};
ghost use Rattle.cm_blocks.specs.Setting.{Setting};
ghost use Rattle.cm_blocks.specs.Well.{AreTables};
ghost use Rattle.cm_state.specs.Edit.{edit, edited};
ghost use Rattle.cm_state.specs.Label.{label_name, label_of};
ghost use Rattle.cm_state.specs.SessionState.{SessionState, IsReady, at_start, line_before};
ghost use Rattle.cm_state.specs.declared.prompt.Prompt.{Prompt};

/// What a new session holds, and what one holds that begins a line at a node of a grammar, is the parse of its empty
/// line.
pub fn a_start_is_a_parse()
    ensures { (s : Setting) → grammar_fault s.graph ≡ None → (node : ℕ) → node < length s.graph.nodes
        → IsParse s node [] [] (open_at node 0) }
{}

/// Such a session is ready for a key under every grammar that has the node.
pub fn a_start_is_ready()
    ensures { (s : Setting) → grammar_fault s.graph ≡ None → (node : ℕ) → node < length s.graph.nodes
        → (prompt : Prompt) → (recall : Option (List ℕ)) → IsReady s (at_start node prompt recall) }
{}

/// What a key makes of a line is a line, where what control-H brings back is one, and the line is one with what a
/// key puts in that completes it.
pub fn the_edit_is_a_line()
    ensures { (held : SessionState) → (key : ℕ) → (inserted : List ℕ) → IsLine (line_before held)
        → IfSome held.recall IsLine → IsLine (line_before held ++ inserted)
        → IsLine (edit (class_at (line_before held) key) key (line_before held) held.recall inserted) }
{}

/// A key leaves a line, and a line is what it leaves for control-H, where the key met such: under an accepted grammar,
/// a catalogue and lawful meanings. Bytes are left for control-H after a finished line alone, so that the key after it
/// meets an empty one.
pub fn a_key_leaves_a_line()
    ensures line { (s : Setting) → grammar_fault s.graph ≡ None → IsCatalogue s.catalogue → AreTables s.graph.tables
        → IsLawful s.meanings → (held : SessionState) → (key : ℕ) → IsLine (line_before held)
        → IfSome held.recall IsLine
        → IsLine (edited s held key).line }
    ensures recall { (s : Setting) → grammar_fault s.graph ≡ None → IsCatalogue s.catalogue
        → AreTables s.graph.tables → IsLawful s.meanings → (held : SessionState) → (key : ℕ) → IsLine (line_before held)
        → IfSome held.recall IsLine
        → IfSome (edited s held key).recall IsLine }
    ensures empty { (s : Setting) → (held : SessionState) → (key : ℕ)
        → IfSome (edited s held key).recall (λ bytes. line_before (edited s held key) ≡ []) }
{}

/// The fields that are kept of an old text are the first fields of the new one.
pub fn the_kept_fields_are_a_prefix()
    ensures { (s : Setting) → grammar_fault s.graph ≡ None → (node : ℕ) → (old new : List ℕ)
        → BeginsWith (kept s node old new) (parse_of s node new).fields }
{}

/// The label of a name has that name: so a program says with it which prompt a state has, and what that shows.
pub fn a_label_has_its_name()
    ensures { (name : List ℕ) → length name ≤ NAME_LIMIT → label_name (label_of name) ≡ name }
{}
