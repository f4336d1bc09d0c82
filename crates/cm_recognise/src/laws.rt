//! Laws of recognition.
ghost use Rattle.std.specs.Prelude.{◌≡◌, ◌≢◌, ◌+◌, ◌≤◌, ◌++◌, ℕ, List, [], None, Some, drop, false, length, true};
ghost use Rattle.std.specs.Io.{StartsWith};
ghost use Rattle.std.specs.List.{AllByRecursion, flat_map};
ghost use Rattle.cm_text.specs.Bytes.{is_shown};
ghost use Rattle.cm_text.specs.ScreenBytes.{shown_byte};
ghost use Rattle.cm_text.specs.Text.{IsLine};
ghost use Rattle.cm_text.specs.declared.text.TheConstants.{LINE_LIMIT};
ghost use Rattle.cm_tables.specs.Common.{AllBeginWith};
ghost use Rattle.cm_files.specs.Catalogue.{IsCatalogue};
ghost use Rattle.cm_hooks.specs.Meanings.{IsLawful};
ghost use Rattle.cm_blocks.specs.declared.field.Ending.{Ending};
ghost use Rattle.cm_blocks.specs.declared.field.Ending.TheVariants as ending;
ghost use Rattle.cm_blocks.specs.declared.node.Block.{Block};
ghost use Rattle.cm_blocks.specs.Chain.{chain_at};
ghost use Rattle.cm_blocks.specs.Fault.{grammar_fault};
ghost use Rattle.cm_blocks.specs.FieldView.{FieldView};
ghost use Rattle.cm_blocks.specs.Setting.{Setting};
ghost use Rattle.cm_blocks.specs.Well.{AreTables};
ghost use Rattle.cm_recognise.specs.declared.found.Found.TheVariants.{Nobody, One, Several};
ghost use Rattle.cm_recognise.specs.declared.outcome.Outcome.TheVariants.{Whole};
ghost use Rattle.cm_recognise.specs.declared.insertion.Mode.{Mode};
ghost use Rattle.cm_recognise.specs.declared.insertion.Mode.TheVariants as modes;
ghost use Rattle.cm_recognise.specs.Candidates.{found_of};
ghost use Rattle.cm_recognise.specs.Insertion.{after, default_put, insertion, is_asked};
ghost use Rattle.cm_recognise.specs.Outcome.{outcome};
ghost use Rattle.cm_recognise.specs.Sound.{HasDevice, TakesField, Waits};

/// A completion that is whole is taken. Where a line waits at a block, and the block completes what is typed of its
/// field as a whole, whatever fields come before, the line with these bytes, and with what is after a whole field, has
/// from the same place on a field of this node and block. It begins where it began, ends with the completion, and leads
/// to the node that the completion names. A directory is completed whatever device is typed before it; it is taken
/// where there is such a device.
pub fn a_whole_completion_is_taken()
    ensures { (s : Setting) → grammar_fault s.graph ≡ None → IsCatalogue s.catalogue → AreTables s.graph.tables
        → IsLawful s.meanings → (fields : List FieldView) → (line : List ℕ) → IsLine line
        → (number b at start : ℕ) → (block : Block)
        → Waits s number b block line at start → HasDevice s block.function (drop start line) → (mode : Mode)
        → (bytes : List ℕ) → (next : ℕ) → outcome s fields mode block (drop start line) start ≡ Whole bytes next
        → TakesField number b start (length line + length bytes) next
        (chain_at s number (line ++ (bytes ++ after s.graph next)) at).chain }
{}

/// Such a completion is what the key puts in that asks the block, ESC or control-F, with what is after a whole
/// field and no bell, where it fits into the line; ESC where no default stands for the field.
pub fn a_whole_completion_is_put_in()
    ensures { (s : Setting) → (fields : List FieldView) → (line : List ℕ) → IsLine line
        → (number b at start : ℕ) → (block : Block)
        → (waits : Waits s number b block line at start) → (mode : Mode) → is_asked mode block.function ≡ true
        → (mode ≡ modes.Escape → default_put (drop start line) waits.node.default ≡ None)
        → (bytes : List ℕ) → (next : ℕ) → outcome s fields mode block (drop start line) start ≡ Whole bytes next
        → length line + length (bytes ++ after s.graph next) ≤ LINE_LIMIT
        → insertion s fields (ending.Open (record { node = number; block = Some b; at = start })) line mode
        ≡ record { bytes = bytes ++ after s.graph next; bell = false } }
{}

/// What a key puts in that completes, at any place of any line, is shown as it is: bytes from space to tilde, none of
/// them a question mark, so that a screen is given each as it is in the line.
pub fn what_is_put_in_is_shown()
    ensures shown { (s : Setting) → grammar_fault s.graph ≡ None → IsCatalogue s.catalogue → AreTables s.graph.tables
        → IsLawful s.meanings → (fields : List FieldView) → (ends : Ending) → (line : List ℕ) → (mode : Mode)
        → is_shown (insertion s fields ends line mode).bytes ≡ true }
    ensures screen { (s : Setting) → grammar_fault s.graph ≡ None → IsCatalogue s.catalogue → AreTables s.graph.tables
        → IsLawful s.meanings → (fields : List FieldView) → (ends : Ending) → (line : List ℕ) → (mode : Mode)
        → flat_map shown_byte (insertion s fields ends line mode).bytes ≡ (insertion s fields ends line mode).bytes }
{}

/// Of texts that may be meant, as users, directories, names and types of files, none is found exactly where there is
/// none, and one exactly where there are some and all of them are that one.
pub fn one_is_found_where_all_are_alike()
    ensures nobody { (texts : List (List ℕ)) → found_of texts ≡ Nobody → texts ≡ [] }
    ensures one { (texts : List (List ℕ)) → (text : List ℕ) → texts ≢ []
        → AllByRecursion (λ other. other ≡ text) texts → found_of texts ≡ One text }
    ensures alike { (texts : List (List ℕ)) → (text : List ℕ) → found_of texts ≡ One text
        → (texts ≢ []) × AllByRecursion (λ other. other ≡ text) texts }
{}

/// What several of them share is the longest text that all of them begin with.
pub fn what_several_share_is_the_longest()
    ensures shared { (texts : List (List ℕ)) → (front : List ℕ) → found_of texts ≡ Several front
        → AllBeginWith texts front }
    ensures longest { (texts : List (List ℕ)) → (front other : List ℕ) → found_of texts ≡ Several front
        → AllBeginWith texts other → StartsWith front other }
{}
