// What the parse of an edited line costs, by example.
ghost use Rattle.std.specs.Prelude.{◌≡◌, ◌∷◌, [], ℕ, List, None, false, codes};
ghost use Rattle.cm_text.specs.Text.{finished};
ghost use Rattle.cm_tables.specs.declared.entry.Entry.{Entry};
ghost use Rattle.cm_files.specs.Catalogue.{Catalogue};
ghost use Rattle.cm_files.specs.declared.flags.Flags.{Flags};
ghost use Rattle.cm_hooks.specs.Meanings.{Meanings};
ghost use Rattle.cm_blocks.specs.declared.function.Function.{Function};
ghost use Rattle.cm_blocks.specs.declared.node.Block.{Block};
ghost use Rattle.cm_blocks.specs.declared.node.Node.{Node};
ghost use Rattle.cm_blocks.specs.KeptParse.{cost};
ghost use Rattle.cm_blocks.specs.Setting.{setting};

use cm_blocks::{Function, Role};
use cm_tables::Flag;

// What a text costs who holds the parse of another, where node 0 takes the end of the line or a keyword, and each
// keyword leads to node 1, which takes the end of the line or a word. The counter takes no bytes, so that no run can
// show it. The rows, in their order:
//
// - A keyword loses the blank that ended it. So that field is not kept: 2 for the end of the line, which is not
//   there, and 4 for the keyword, which wants more.
// - A word of one byte goes, and the blank before it stays. So the keyword is kept: 1 for the end of the line, which
//   has no byte to look at.
// - A word loses one of two bytes: 2 for the end of the line and 2 for the word.
// - A line stays as it was, with both its fields: 1 for the end of the line.
// - Another stays whose word wants more: 2 for the end of the line and 3 for the word.
// - A line is finished: 2 for the end of the line and 3 for the word, and 2 for the end of the line after it.
// - The same, of which nothing was held: besides, 2 for the end of the line and 5 for the keyword.
fn edits_cost_their_trials()
    ensures { (catalogue : Catalogue) → (meanings : Meanings) → (flags : Flags)
        → let block : Function → ℕ → Block = λ function next. record {
          function = function;
          flags = flags;
          help = None;
          role = Role.None;
          next = next;
          once = false;
        } in
        let node : Function → ℕ → Node = λ function next. record {
          chain = block Function.Confirm 0 ∷ block function next ∷ [];
          default = None;
          raw = false;
          awaits = None;
        } in
        let entry : List ℕ → Entry = λ text. record {
          text = text;
          flag = Flag.Plain;
          colon = false;
          code = 0;
          next = 1;
          help = None;
        } in
        let s = setting (record {
          nodes = node (Function.Key 0) 0 ∷ node Function.Word 1 ∷ [];
          tables = (entry (codes "COPY") ∷ entry (codes "DELETE") ∷ entry (codes "DIRECTORY") ∷ []) ∷ [];
        }) catalogue meanings in
        (cost s 0 (codes "DIR ") (codes "DIR") ≡ 6)
        × (cost s 0 (codes "DIR A") (codes "DIR ") ≡ 1)
        × (cost s 0 (codes "DIR AB") (codes "DIR A") ≡ 4)
        × (cost s 0 (codes "DIR AB ") (codes "DIR AB ") ≡ 1)
        × (cost s 0 (codes "DIR AB") (codes "DIR AB") ≡ 5)
        × (cost s 0 (codes "DIR A") (finished (codes "DIR A")) ≡ 7)
        × (cost s 0 [] (finished (codes "DIR A")) ≡ 14) }
{}

#[test]
fn counts_what_an_edit_costs() {
    edits_cost_their_trials();
}
