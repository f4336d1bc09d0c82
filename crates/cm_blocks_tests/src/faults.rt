// What makes nodes and tables a grammar, by example.

use crate::cases::{Subject, debug_text, hold, numbered};
use crate::grammars::{entry, node_of, nodes_of, two_tables};
use cm_blocks::{Block, Blocks, Function, Grammar, GrammarFault, Node, Role};
use cm_tables::Table;
use cm_text::{NAME_LIMIT, Name};
use std::alloc::Global;
use std::test::Fail;

// The fault of these nodes, beside two tables.
struct Faults;

impl Subject for Faults {
    fn answer(&self, alloc: Global, given: &str) -> Result<String, Fail> {
        let found = Grammar::new(nodes_of(alloc, given)?, two_tables(alloc)?).err();
        debug_text(alloc, &found)
    }
}

// Of two faults of a node the order decides, wherever they stand. The least node decides, and a want of Confirm comes
// last.
const FAULTS: &str = " => Some(EmptyChain(0))
Word => Some(NoConfirm)
Confirm => None
Word/Word Confirm => None
Confirm/ => Some(EmptyChain(1))
Confirm/Confirm*16 => None
Confirm/Confirm/Confirm/Confirm*17 => Some(ChainLong(3))
Confirm/Key:0 => None
Confirm/Key:2 => Some(TableRange(1))
Confirm/Switch:0 => None
Confirm/Confirm Switch:2 => Some(TableRange(1))
Confirm/Word>1 => None
Confirm/Word>2 => Some(NextRange(1))
Confirm/Key:1 => Some(NextRange(1))
Confirm/Switch:1 => Some(NextRange(1))
Confirm/Confirm/Switch:1 => None
Confirm Key:0 => Some(NextRange(0))
Confirm/Nothing => Some(BadText(1))
Confirm/Word+all_generations => Some(BadFlags(1))
Key:2*17 => Some(ChainLong(0))
Word>9*17 => Some(ChainLong(0))
Nothing*17 => Some(ChainLong(0))
Word+all_generations*17 => Some(ChainLong(0))
Word>9 Key:2 => Some(TableRange(0))
Nothing Key:2 => Some(TableRange(0))
Word+all_generations Key:2 => Some(TableRange(0))
Nothing Word>9 => Some(NextRange(0))
Word+all_generations Word>9 => Some(NextRange(0))
Word+all_generations Nothing => Some(BadText(0))
Word+all_generations/ => Some(BadFlags(0))
Nothing/Key:2 => Some(BadText(0))
Word/ => Some(EmptyChain(1))
Word*17 => Some(ChainLong(0))
Word/Word+all_generations => Some(BadFlags(1))
Confirm/Run:0 => None
Confirm/Run:1 => Some(BadBytes(1))
Confirm/Run:2 => Some(BadBytes(1))
Confirm/Run:3 => Some(BadBytes(1))
Confirm/Word Run:4 => Some(BadBytes(1))
Confirm/Run:5 => None
Confirm/Run:6 => Some(BadBytes(1))
Run:1>9 => Some(NextRange(0))
Run:1 Nothing => Some(BadText(0))
Run:1+all_generations => Some(BadBytes(0))
Word+all_generations Run:1 => Some(BadBytes(0))
Run:1/ => Some(BadBytes(0))
Confirm/Numeral:0 => None
Confirm/Numeral:1 => Some(BadNumbers(1))
Confirm/Numeral:2 => None
Confirm/Numeral:3 => Some(BadNumbers(1))
Confirm/Numeral:4 => Some(BadNumbers(1))
Confirm/Word Numeral:4 => Some(BadNumbers(1))
Confirm/Numeral:5 => None
Numeral:1 Nothing => Some(BadText(0))
Numeral:1 Run:1 => Some(BadBytes(0))
Numeral:1+all_generations => Some(BadNumbers(0))
Word+all_generations Numeral:1 => Some(BadNumbers(0))
Numeral:1/ => Some(BadNumbers(0))
Confirm/LongQuoted => None";

// [grammar-fault]
#[test]
fn finds_the_first_fault(rt: HostRuntime) -> Result<(), Fail> {
    let none = Grammar::new(Vec::new(rt.alloc()), two_tables(rt.alloc())?).err();
    assert_eq!(rt; none, Some(GrammarFault::TooMany));
    hold(rt.alloc(), &Faults, FAULTS)
}

// The default, which may not be shown, is a text of the node, and counts where those of its blocks do.
const DEFAULT_FAULTS: &str = " =A? => Some(EmptyChain(0))
Confirm*17 =A? => Some(ChainLong(0))
Key:2 =A? => Some(TableRange(0))
Word>9 =A? => Some(NextRange(0))
Confirm =A? => Some(BadText(0))
Nothing =A? => Some(BadText(0))
Word+all_generations =A? => Some(BadText(0))
Word =A? => Some(BadText(0))";

#[test]
fn finds_a_bad_default_among_other_faults(rt: HostRuntime) -> Result<(), Fail> {
    hold(rt.alloc(), &Faults, DEFAULT_FAULTS)
}

// The fault of these nodes, beside a table of keywords of which two begin alike.
struct Defaults;

impl Subject for Defaults {
    fn answer(&self, alloc: Global, given: &str) -> Result<String, Fail> {
        let entries = [
            entry("QUIT", false, 0, 0),
            entry("SEND", false, 0, 0),
            entry("SET", false, 0, 0),
        ];
        let table = Table::new(Vec::from_array(alloc, entries)?)?;
        let found = Grammar::new(nodes_of(alloc, given)?, vec![in alloc; table]?).err();
        debug_text(alloc, &found)
    }
}

// What a field of the text would be is a default. Blanks and comments before it are skipped, but in a raw node `!`
// begins none; what is after the field is not read.
const TAKEN: &str = "Confirm/Number =7 => None
Confirm/Number =A => Some(BadDefault(1))
Confirm/Number = => Some(BadDefault(1))
Confirm/Number Confirm = => None
Confirm =A => Some(BadDefault(0))
Confirm/Numeral:0 =10 => None
Confirm/Numeral:0 =9 => Some(BadDefault(1))
Confirm/Numeral:0 =100001 => Some(BadDefault(1))
Confirm/Numeral:0 Word =9 => None
Confirm/Key:0 =SET => None
Confirm/Key:0 =q => None
Confirm/Key:0 =SE => Some(BadDefault(1))
Confirm/Key:0 =RESET => Some(BadDefault(1))
Confirm/Word =A B => None
Confirm/Token =12 => None
Confirm/Token =13 => Some(BadDefault(1))
Confirm/Word = !x! A => None
Confirm/Word =!A => Some(BadDefault(1))
Confirm/raw Word =!A => Some(BadDefault(1))
Confirm/raw Text =!A => None";

// [default-fault]
#[test]
fn knows_what_defaults_are_taken(rt: HostRuntime) -> Result<(), Fail> {
    hold(rt.alloc(), &Defaults, TAKEN)
}

// Where a catalogue or a hook may decide nothing is refused, as a block before or after it may be. The least node
// decides, and every other fault comes first.
const DEFAULTS: &str = "Confirm/Hook:0 =$ => None
Confirm/Hook:0 Number =A => None
Confirm/Number Hook:0 =A => None
Confirm/User =$ => None
Confirm/Directory =$ => None
Confirm/InFile =$ => None
Number =A/Confirm => Some(BadDefault(0))
Confirm/Number =A/Number =B => Some(BadDefault(1))
Confirm/Number =7/Number =B => Some(BadDefault(2))
Confirm/Hook:0 =$/Number =B => Some(BadDefault(2))
Number =A => Some(NoConfirm)
Confirm/Number =A/Key:1 => Some(TableRange(2))
Confirm/Number =A/Number =? => Some(BadText(2))";

// [default-fault]
#[test]
fn finds_the_first_bad_default(rt: HostRuntime) -> Result<(), Fail> {
    hold(rt.alloc(), &Defaults, DEFAULTS)
}

// A grammar of literals: the end of the line, and a number, by default A.
#[tactic(auto, unfolding(cm_blocks::specs::Fault::grammar_fault))]
fn with_a_bad_default(alloc: Global) -> Result<Grammar, Fail> {
    let end = vec![in alloc; Block::new(Function::Confirm, Role::None, 0)]?;
    let number = Node {
        chain: Blocks::new(vec![in alloc; Block::new(Function::Number, Role::Value, 0)]?),
        default: Some(Name::new("A")),
        raw: false,
        awaits: None,
    };
    let nodes = vec![in alloc; Node::new(end), number]?;
    Ok(Grammar::of(nodes, Vec::new(alloc)))
}

// [default-fault]
#[test]
fn tells_a_bad_default_of_literals(rt: HostRuntime) -> Result<(), Fail> {
    let grammar = with_a_bad_default(rt.alloc())?;
    assert_eq!(rt; grammar.bad_default(), Some(1));
    Ok(())
}

// So many nodes of these blocks.
fn same_nodes(alloc: Global, nodes: u16, blocks: &str) -> Result<Vec<Node>, Fail> {
    let mut made = Vec::new(alloc);
    for _ in 0..nodes {
        made.push(node_of(alloc, blocks)?)?;
    }
    Ok(made)
}

fn empty_tables(alloc: Global, tables: u16) -> Result<Vec<Table>, Fail> {
    let mut made = Vec::new(alloc);
    for _ in 0..tables {
        made.push(Table::new(Vec::new(alloc))?)?;
    }
    Ok(made)
}

// The fault by numbers of nodes and of tables, and the blocks of each node.
struct Counts;

impl Subject for Counts {
    fn answer(&self, alloc: Global, given: &str) -> Result<String, Fail> {
        let (nodes, rest) = numbered(given)?;
        let (tables, blocks) = numbered(rest)?;
        let nodes = same_nodes(alloc, nodes, blocks)?;
        debug_text(
            alloc,
            &Grammar::new(nodes, empty_tables(alloc, tables)?).err(),
        )
    }
}

const COUNTS: &str = "1024 64 Confirm*16 => None
1025 0 Confirm*16 => Some(TooMany)
1025 0  => Some(TooMany)
1 65 Confirm => Some(TooMany)
1 65  => Some(TooMany)
1 0  => Some(EmptyChain(0))
1024 0 Confirm*17 => Some(ChainLong(0))";

#[test]
fn counts_nodes_blocks_and_tables(rt: HostRuntime) -> Result<(), Fail> {
    hold(rt.alloc(), &Counts, COUNTS)
}

// Whether the first block of a node may have these texts: else the fault is that the node has a bad text.
fn has_good_text(
    alloc: Global,
    function: Function,
    help: Option<Name>,
    default: Option<Name>,
) -> Result<bool, Fail> {
    let mut first = Block::new(function, Role::None, 0);
    first.help = help;
    let chain = vec![in alloc; first, Block::new(Function::Confirm, Role::None, 0)]?;
    let node = Node {
        chain: Blocks::new(chain),
        default,
        raw: false,
        awaits: None,
    };
    match Grammar::new(vec![in alloc; node]?, Vec::new(alloc)) {
        Ok(_) => Ok(true),
        // A default that the node does not take is a text that it may have.
        Err(GrammarFault::BadDefault(0)) => Ok(true),
        Err(GrammarFault::BadText(0)) => Ok(false),
        Err(fault) => Err(fault)?,
    }
}

// Whether a text may be a token, a guide word, a help text and a default.
struct Texts;

impl Subject for Texts {
    fn answer(&self, alloc: Global, given: &str) -> Result<String, Fail> {
        if given.len() > NAME_LIMIT {
            return Err(Fail::new("a text is too long"));
        }
        let token = has_good_text(alloc, Function::Token(Name::new(given)), None, None)?;
        let noise = has_good_text(alloc, Function::Noise(Name::new(given)), None, None)?;
        let help = has_good_text(alloc, Function::Word, Some(Name::new(given)), None)?;
        let default = has_good_text(alloc, Function::Word, None, Some(Name::new(given)))?;
        debug_text(alloc, &(token, noise, help, default))
    }
}

const TEXTS: &str = " => (false, false, true, true)
  => (true, true, true, true)
A~ => (true, true, true, true)
COMMANDS FROM => (true, true, true, true)
(A => (true, false, true, true)
A) => (true, false, true, true)
A? => (false, false, false, false)
\tA => (false, false, false, false)
A\x7f => (false, false, false, false)
A\u{e9} => (false, false, false, false)";

#[test]
fn knows_the_texts_of_a_node(rt: HostRuntime) -> Result<(), Fail> {
    hold(rt.alloc(), &Texts, TEXTS)
}
