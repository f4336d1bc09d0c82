//! Laws of grammars, chains and parses.
ghost use Rattle.std.specs.Prelude.{◌≡◌, ◌+◌, ◌<◌, ◌≤◌, ◌++◌, ◌∷◌, ℕ, true, false, List, [], None, length};
ghost use Rattle.std.specs.List.{list_all};
ghost use Rattle.cm_text.specs.Text.{finished};
ghost use Rattle.cm_fields.specs.Local.{IsLocal};
ghost use Rattle.cm_files.specs.declared.flags.Flags.{Flags};
ghost use Rattle.cm_blocks.specs.declared.fault.TheConstants.{BLOCK_LIMIT, NODE_LIMIT, TABLE_LIMIT};
ghost use Rattle.cm_blocks.specs.declared.field.Chain.TheVariants as chain;
ghost use Rattle.cm_blocks.specs.declared.field.Ending.{Ending};
ghost use Rattle.cm_blocks.specs.declared.field.TheConstants.{FIELD_LIMIT};
ghost use Rattle.cm_blocks.specs.declared.function.Function.{Function};
ghost use Rattle.cm_blocks.specs.declared.node.Node.{Node};
ghost use Rattle.cm_blocks.specs.Chain.{chain_at};
ghost use Rattle.cm_blocks.specs.Count.{trials_of};
ghost use Rattle.cm_blocks.specs.Default.{bare, is_plain_block, takes_default};
ghost use Rattle.cm_blocks.specs.Fault.{grammar_fault};
ghost use Rattle.cm_blocks.specs.KeptParse.{BeginsWith, kept};
ghost use Rattle.cm_blocks.specs.Once.{repeats};
ghost use Rattle.cm_blocks.specs.Parse.{IsClosed, IsParse, open_at, parse_of};
ghost use Rattle.cm_blocks.specs.Setting.{Setting};
ghost use Rattle.cm_blocks.specs.FieldView.{FieldView};
ghost use Rattle.cm_blocks.specs.Trial.{trial};

/// The most nodes, tables and blocks of a grammar, and the most fields of a line.
pub fn these_are_the_numbers()
    ensures nodes { NODE_LIMIT ≡ 1024 }
    ensures tables { TABLE_LIMIT ≡ 64 }
    ensures blocks { BLOCK_LIMIT ≡ 16 }
    ensures fields { FIELD_LIMIT ≡ 64 }
{}

/// What a function decides, with any flags, on the first bytes of a text it decides on every text that begins with
/// them.
pub fn trials_are_local()
    ensures { (s : Setting) → (function : Function) → (flags : Flags)
        → IsLocal (trial s function flags) }
{}

/// A field is the same on every text that begins with as many bytes as the field needs.
pub fn a_field_needs_no_more()
    ensures { (s : Setting) → grammar_fault s.graph ≡ None → (node : ℕ) → (front more other : List ℕ)
        → (at : ℕ) → (field : FieldView) → at ≤ length front
        → (chain_at s node (front ++ more) at).chain ≡ chain.Field field → field.need ≤ length front
        → (chain_at s node (front ++ other) at).chain ≡ chain.Field field }
{}

/// Each text has one parse from each node on: there is one, and any two are the same.
pub fn one_parse()
    ensures is_one { (s : Setting) → (node : ℕ) → (text : List ℕ)
        → IsParse s node text (parse_of s node text).fields (parse_of s node text).ending }
    ensures no_other { (s : Setting) → (node : ℕ) → (text : List ℕ) → (fields : List FieldView)
        → (ending : Ending) → IsParse s node text fields ending
        → (fields ≡ (parse_of s node text).fields) × (ending ≡ (parse_of s node text).ending) }
{}

/// A parse makes at most 65 chain trials: one for each of its fields, of which there are at most 64, and the last.
pub fn a_parse_makes_65_trials()
    ensures each { (s : Setting) → (node : ℕ) → (text : List ℕ)
        → trials_of s node text ≡ length (parse_of s node text).fields + 1 }
    ensures most { (s : Setting) → (node : ℕ) → (text : List ℕ) → trials_of s node text ≤ 65 }
{}

/// A line has an option once: no field of a parse is an option that one of the fields before it is.
pub fn a_line_has_an_option_once()
    ensures { (s : Setting) → (node : ℕ) → (text : List ℕ) → (before after : List FieldView) → (field : FieldView)
        → (parse_of s node text).fields ≡ before ++ field ∷ after → repeats s.graph before field ≡ false }
{}

/// The parse of a finished text is decided: it is done or refused, and never open.
pub fn a_finished_text_is_decided()
    ensures { (s : Setting) → grammar_fault s.graph ≡ None → (node : ℕ) → (line : List ℕ)
        → IsClosed (parse_of s node (finished line)).ending }
{}

/// What plain blocks make of the default of their node they make of it in every setting of one grammar, whatever names
/// and rules there are: a bad default is never taken.
pub fn a_plain_default_is_decided()
    ensures { (s : Setting) → (node : Node) → (text : List ℕ) → list_all is_plain_block node.chain ≡ true
        → takes_default s node text ≡ takes_default (bare s.graph) node text }
{}

/// The parse of the empty line from a node of a grammar on has no field, and is open at the first block.
pub fn a_start_is_open()
    ensures { (s : Setting) → grammar_fault s.graph ≡ None → (node : ℕ) → node < length s.graph.nodes
        → parse_of s node [] ≡ record { fields = []; ending = open_at node 0 } }
{}

/// The fields that are kept of an old text are the first fields of the new one.
pub fn what_is_kept_stands()
    ensures { (s : Setting) → grammar_fault s.graph ≡ None → (node : ℕ) → (old new : List ℕ)
        → BeginsWith (kept s node old new) (parse_of s node new).fields }
{}
