// Chains tried on texts, by example.
ghost use Rattle.std.specs.Prelude.{◌≡◌, ◌<◌, ◌++◌, ◌∷◌, [], Some, None, false, codes};
ghost use Rattle.cm_files.specs.declared.flags.Flags.{Flags};
ghost use Rattle.cm_files.specs.Catalogue.{Catalogue};
ghost use Rattle.cm_hooks.specs.Meanings.{Meanings};
ghost use Rattle.cm_blocks.specs.declared.function.Function.{Function};
ghost use Rattle.cm_blocks.specs.declared.node.Block.{Block};
ghost use Rattle.cm_blocks.specs.declared.node.Node.{Node};
ghost use Rattle.cm_blocks.specs.Chain.{chain_at};
ghost use Rattle.cm_blocks.specs.Setting.{setting};

use crate::grammars::{entry, nodes_of};
use crate::setting::answer_chains;
use cm_blocks::{Function, Grammar, Role};
use cm_tables::Table;
use std::alloc::Global;
use std::test::Fail;

// Keywords, and switches.
fn tables(alloc: Global) -> Result<Vec<Table>, Fail> {
    let keywords = [entry("GO", false, 50, 1), entry("RUN", false, 60, 3)];
    let switches = [entry("AFTER", true, 70, 4), entry("FAST", false, 80, 5)];
    let mut tables = Vec::new(alloc);
    tables.push(Table::new(Vec::from_array(alloc, keywords)?)?)?;
    tables.push(Table::new(Vec::from_array(alloc, switches)?)?)?;
    Ok(tables)
}

// Each node has its blocks and its default.
const NODES: &str = "Number>1 Word>2 Confirm =7/\
    Confirm/\
    raw Number>1 Text>1/\
    Number>1 Text>1/\
    Word>2 Confirm = !x! AB/\
    raw Word>2 Text>1 =!x!A/\
    Confirm =/\
    Comma>7 Number>1/\
    Key:0 Switch:1 Hook:0>6/\
    Number>1 Token>1/\
    Noise>1/\
    Confirm Quoted>1/\
    Key:0 =R/\
    Numeral:0>1/\
    Numeral:5>1 LongQuoted>1/\
    Hook:0>1 Number>1 =ABC";

fn grammar(alloc: Global) -> Result<Grammar, Fail> {
    Ok(Grammar::new(nodes_of(alloc, NODES)?, tables(alloc)?)?)
}

// The number looks at as many bytes as the word that is taken, or at more than the token. Comments count, but in no raw
// node. The entry of a keyword or a switch leads on.
const OF_THE_TEXT: &str = "\
    0 0 8\r => Field(Field { node: 0, block: 0, value: Number(8), start: 0, end: 1, need: 2, defaulted: false, \
    role: Value, next: 1 })\n\
    0 1 A 8, => Field(Field { node: 0, block: 0, value: Number(8), start: 2, end: 3, need: 4, defaulted: false, \
    role: Value, next: 1 })\n\
    0 0  !x!8 \r => Field(Field { node: 0, block: 0, value: Number(8), start: 4, end: 5, need: 6, defaulted: false, \
    role: Value, next: 1 })\n\
    0 0 12A\r => Field(Field { node: 0, block: 1, value: Word(Span { start: 0, end: 3 }), start: 0, end: 3, \
    need: 4, defaulted: false, role: What, next: 2 })\n\
    9 0 12A, => Field(Field { node: 9, block: 1, value: Token, start: 0, end: 2, need: 4, defaulted: false, \
    role: None, next: 1 })\n\
    2 0  !x!5\r => Field(Field { node: 2, block: 1, value: Text(Span { start: 1, end: 5 }), start: 1, end: 5, \
    need: 6, defaulted: false, role: None, next: 1 })\n\
    3 0  !x!5\r => Field(Field { node: 3, block: 0, value: Number(5), start: 4, end: 5, need: 6, defaulted: false, \
    role: Value, next: 1 })\n\
    7 0 ,A => Field(Field { node: 7, block: 0, value: Comma, start: 0, end: 1, need: 1, defaulted: false, \
    role: None, next: 7 })\n\
    10 0 A\r => Field(Field { node: 10, block: 0, value: Noise(false), start: 0, end: 0, need: 1, defaulted: false, \
    role: None, next: 1 })\n\
    10 0  (FR)X => Field(Field { node: 10, block: 0, value: Noise(true), start: 1, end: 5, need: 5, \
    defaulted: false, role: None, next: 1 })\n\
    11 0 \"A\"  => Field(Field { node: 11, block: 1, value: Quoted(Span { start: 1, end: 2 }), start: 0, end: 3, \
    need: 4, defaulted: false, role: Value, next: 1 })\n\
    13 0 10\r => Field(Field { node: 13, block: 0, value: Integer(10), start: 0, end: 2, need: 3, \
    defaulted: false, role: Value, next: 1 })\n\
    14 0 -5, => Field(Field { node: 14, block: 0, value: Integer(-5), start: 0, end: 2, need: 3, \
    defaulted: false, role: Value, next: 1 })\n\
    14 0 \"thirty-nine bytes stand before the end.!\"\r => Field(Field { node: 14, block: 1, \
    value: Quoted(Span { start: 1, end: 41 }), start: 0, end: 42, need: 43, defaulted: false, role: Value, \
    next: 1 })\n\
    8 0 ru  => Field(Field { node: 8, block: 0, value: Key { entry: 1, code: 60 }, start: 0, end: 2, need: 3, \
    defaulted: false, role: Verb, next: 3 })\n\
    8 0 /A: => Field(Field { node: 8, block: 1, value: Switch { entry: 0, code: 70 }, start: 0, end: 3, need: 3, \
    defaulted: false, role: Sub, next: 4 })\n\
    8 0  AB\r => Field(Field { node: 8, block: 2, value: Hook { id: 0, value: 2 }, start: 1, end: 3, need: 4, \
    defaulted: false, role: Files, next: 6 })";

#[test]
fn takes_fields_of_the_text(rt: HostRuntime) -> Result<(), Fail> {
    answer_chains(&rt, &grammar(rt.alloc())?, OF_THE_TEXT)
}

// The spans are places in the default, whose comments count as those of the text do.
const OF_THE_DEFAULT: &str = "\
    0 0 \r => Field(Field { node: 0, block: 0, value: Number(7), start: 0, end: 0, need: 1, defaulted: true, \
    role: Value, next: 1 })\n\
    0 0  \r => Field(Field { node: 0, block: 0, value: Number(7), start: 1, end: 1, need: 2, defaulted: true, \
    role: Value, next: 1 })\n\
    0 1 A\r => Field(Field { node: 0, block: 0, value: Number(7), start: 1, end: 1, need: 2, defaulted: true, \
    role: Value, next: 1 })\n\
    0 1 A;x\r => Field(Field { node: 0, block: 0, value: Number(7), start: 3, end: 3, need: 4, defaulted: true, \
    role: Value, next: 1 })\n\
    4 0  \r => Field(Field { node: 4, block: 0, value: Word(Span { start: 5, end: 7 }), start: 1, end: 1, need: 2, \
    defaulted: true, role: What, next: 2 })\n\
    5 0 \r => Field(Field { node: 5, block: 1, value: Text(Span { start: 0, end: 4 }), start: 0, end: 0, need: 1, \
    defaulted: true, role: None, next: 1 })\n\
    12 0 \r => Field(Field { node: 12, block: 0, value: Key { entry: 1, code: 60 }, start: 0, end: 0, need: 1, \
    defaulted: true, role: Verb, next: 3 })";

// [default]
#[test]
fn takes_fields_of_the_default(rt: HostRuntime) -> Result<(), Fail> {
    answer_chains(&rt, &grammar(rt.alloc())?, OF_THE_DEFAULT)
}

// A default may confirm. A fault has the code of the last block, and what is open the number of the first block that
// wants more; within a comment no block is tried.
const NO_FIELD: &str = "1 0 \r => Done(0)
1 3 12A  ;x\r => Done(7)
6 0   \r => Done(2)
0 0   , => Fault(Fault { code: NotConfirmed, node: 0, at: 2 })
6 0 A\r => Fault(Fault { code: NotConfirmed, node: 6, at: 0 })
7 0 A\r => Fault(Fault { code: BadNumber, node: 7, at: 0 })
15 0  \r => Fault(Fault { code: BadNumber, node: 15, at: 1 })
8 0 ABC\r => Fault(Fault { code: Rejected, node: 8, at: 0 })
8 2 GO, => Fault(Fault { code: NoField, node: 8, at: 2 })
11 0 A\r => Fault(Fault { code: NotQuoted, node: 11, at: 0 })
13 0 9\r => Fault(Fault { code: OutOfRange(Outside(\"Must be 10 to 100000\")), node: 13, at: 0 })
13 0  A\r => Fault(Fault { code: BadNumber, node: 13, at: 1 })
14 0 8\r => Fault(Fault { code: NotQuoted, node: 14, at: 0 })
12 0 X  => Fault(Fault { code: NotKeyword, node: 12, at: 0 })
0 0  => Open(Open { node: 0, block: Some(0), at: 0 })
0 0 12A => Open(Open { node: 0, block: Some(0), at: 0 })
0 2 12   => Open(Open { node: 0, block: Some(0), at: 4 })
7 0 1 => Open(Open { node: 7, block: Some(1), at: 0 })
13 0 10 => Open(Open { node: 13, block: Some(0), at: 0 })
8 0 A$ => Open(Open { node: 8, block: Some(2), at: 0 })
2 0  ;x => Open(Open { node: 2, block: Some(1), at: 1 })
1 3  !x => Open(Open { node: 1, block: Some(0), at: 3 })
3 0  ;x => Open(Open { node: 3, block: None, at: 0 })
0 1 8 !x => Open(Open { node: 0, block: None, at: 1 })
1 0 !x! ! => Open(Open { node: 1, block: None, at: 0 })
6 0 ! => Open(Open { node: 6, block: None, at: 0 })";

#[test]
fn takes_no_field(rt: HostRuntime) -> Result<(), Fail> {
    answer_chains(&rt, &grammar(rt.alloc())?, NO_FIELD)
}

// What a number, a word and the end of the line, with the default 7, cost on some texts. The counter takes no
// bytes, so that no run can show it.
#[tactic(auto, unfolding(cm_blocks::specs::Chain::chain_at, cm_blocks::specs::Trial::trial, cm_fields::specs::Run::number_of, cm_fields::specs::Run::word_of, cm_text::specs::Bytes::is_blank, cm_text::specs::Bytes::is_word,))]
fn each_block_costs_its_bytes_and_one()
    ensures { (catalogue : Catalogue) → (meanings : Meanings) → (flags : Flags)
        → let block : Function → Block = λ function. record {
          function = function;
          flags = flags;
          help = None;
          role = Role.None;
          next = 0;
          once = false;
        } in
        let node : Node = record {
          chain = block Function.Number ∷ block Function.Word ∷ block Function.Confirm ∷ [];
          default = Some (codes "7");
          raw = false;
          awaits = None;
        } in
        let s = setting (record { nodes = node ∷ []; tables = [] }) catalogue meanings in
        ((chain_at s 0 (codes "12A" ++ 13 ∷ []) 0).spent ≡ 10)
        × ((chain_at s 0 (codes "12A") 0).spent ≡ 4)
        × ((chain_at s 0 (codes " 12A") 0).spent ≡ 4)
        × ((chain_at s 0 (codes ",") 0).spent ≡ 6)
        × ((chain_at s 0 (13 ∷ []) 0).spent ≡ 3)
        × ((chain_at s 0 (codes " !x") 0).spent ≡ 0) }
{}

#[test]
fn counts_what_each_block_looks_at() {
    each_block_costs_its_bytes_and_one();
}
