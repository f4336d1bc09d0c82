// Grammars as text, and what they are made of.
ghost use Rattle.std.specs.Prelude.{◌≡◌, ◌≤◌, IfOk, length};

use crate::cases::{Subject, debug_text, hold};
use crate::files::flags_of;
use cm_blocks::{Block, Blocks, Function, Grammar, Node, Role};
use cm_fields::{Numbers, Radix};
use cm_tables::{Entry, Flag, Table};
use cm_text::{ByteSet, NAME_LIMIT, Name};
use std::alloc::Global;
use std::test::Fail;

pub(crate) fn entry(text: &str, colon: bool, code: u16, next: u16) -> Entry
    requires { length text.now ≤ NAME_LIMIT }
{
    Entry {
        text: Name::new(text),
        flag: Flag::Plain,
        colon,
        code,
        next,
        help: None,
    }
}

// The functions by their names. A token is `12` or nothing, a guide word `FROM`, a run of what `set_of` says, and
// numbers are those of `numbers_of`.
const FUNCTIONS: &str =
    "Confirm Word Number Quoted Comma Text User Directory InFile Key Switch Hook Noise Token Date Run \
    Numeral LongQuoted Nothing";

fn function_of(name: &str, number: u16) -> Result<Function, Fail> {
    let place = FUNCTIONS.split(' ').position(|word| word == name);
    Ok(match place.ok_or("no such function")? {
        0 => Function::Confirm,
        1 => Function::Word,
        2 => Function::Number,
        3 => Function::Quoted,
        4 => Function::Comma,
        5 => Function::Text,
        6 => Function::User,
        7 => Function::Directory,
        8 => Function::InFile,
        9 => Function::Key(number),
        10 => Function::Switch(number),
        11 => Function::Hook(u8::try_from(number)?),
        12 => Function::Noise(Name::new("FROM")),
        13 => Function::Token(Name::new("12")),
        14 => Function::Date,
        15 => Function::Run(set_of(number)),
        16 => Function::Numeral(numbers_of(number)),
        17 => Function::LongQuoted,
        _ => Function::Token(Name::new("")),
    })
}

// The bytes of a run: of an address, no byte, or a byte more that no field has.
fn set_of(number: u16) -> ByteSet {
    let address = ByteSet::of(b"./").with_range(b'0', b'9');
    match number {
        0 => address,
        1 => ByteSet::of(b""),
        2 => address.with_range(b'\r', b'\r'),
        3 => address.with_range(b'\n', b'\n'),
        4 => address.with_range(b'?', b'?'),
        5 => address.with_range(b' ', b'>'),
        _ => address.with_range(b' ', b'~'),
    }
}

// From 10 to 100000, from 11 to 10, up to 35 bits and one more, and from -5 to 7 without a sign and with one.
fn numbers_of(number: u16) -> Numbers {
    let (signed, least, most) = match number {
        0 => (false, 10, 100_000),
        1 => (false, 11, 10),
        2 => (false, 0, 34_359_738_367),
        3 => (false, 0, 34_359_738_368),
        4 => (false, -5, 7),
        _ => (true, -5, 7),
    };
    Numbers {
        radix: Radix::Decimal,
        signed,
        least,
        most,
    }
}

fn role_of(function: &Function) -> Role {
    match function {
        Function::Word => Role::What,
        Function::Number | Function::Numeral(_) => Role::Value,
        Function::Quoted | Function::LongQuoted => Role::Value,
        Function::User | Function::Directory | Function::Hook(_) => Role::Files,
        Function::InFile => Role::Source,
        Function::Key(_) => Role::Verb,
        Function::Switch(_) => Role::Sub,
        _ => Role::None,
    }
}

// A text before a mark and the number after it, 0 where the mark is not there.
fn with_number(given: &str, mark: char) -> Result<(&str, u16), Fail> {
    match given.split_once(mark) {
        Some((text, number)) => Ok((text, number.parse::<u16>()?)),
        None => Ok((given, 0)),
    }
}

// The block of a word: its function, `:` and the number of its table or its hook, `+` and a flag or `once`, `>` and
// the next node, of which each but the function may be left out.
fn block_of(word: &str) -> Result<Block, Fail> {
    let (rest, next) = with_number(word, '>')?;
    let (rest, flags) = rest.split_once('+').unwrap_or((rest, ""));
    let (name, number) = with_number(rest, ':')?;
    let function = function_of(name, number)?;
    let role = role_of(&function);
    Ok(Block {
        function,
        flags: flags_of(flags),
        help: None,
        role,
        next,
        once: flags == "once",
    })
}

// Pushes the block of a word as often as is said after a star.
fn push_blocks(chain: &mut Vec<Block>, word: &str) -> Result<(), Fail> {
    let (word, count) = with_number(word, '*')?;
    for _ in 0..count.max(1) {
        chain.push(block_of(word)?)?;
    }
    Ok(())
}

fn chain_of(alloc: Global, words: &str) -> Result<Vec<Block>, Fail> {
    let mut chain = Vec::new(alloc);
    for word in words.split_ascii_whitespace() {
        push_blocks(&mut chain, word)?;
    }
    Ok(chain)
}

// A default that is given.
fn default_of(text: Option<&str>) -> Result<Option<Name>, Fail> {
    match text {
        Some(text) if text.len() > NAME_LIMIT => Err(Fail::new("a default is too long")),
        Some(text) => Ok(Some(Name::new(text))),
        None => Ok(None),
    }
}

// The node of the blocks of these words, raw where that is the first, with the default after ` =`.
pub(crate) fn node_of(alloc: Global, given: &str) -> Result<Node, Fail> {
    let words = given.strip_prefix("raw ").unwrap_or(given);
    let (words, default) = match words.split_once(" =") {
        Some((words, default)) => (words, Some(default)),
        None => (words, None),
    };
    let default = default_of(default)?;
    Ok(Node {
        chain: Blocks::new(chain_of(alloc, words)?),
        default,
        raw: given.starts_with("raw "),
        awaits: None,
    })
}

// The nodes, with slashes between.
pub(crate) fn nodes_of(alloc: Global, given: &str) -> Result<Vec<Node>, Fail> {
    let mut nodes = Vec::new(alloc);
    for node in given.split('/') {
        nodes.push(node_of(alloc, node)?)?;
    }
    Ok(nodes)
}

fn first_table(alloc: Global) -> Result<Table, Fail> {
    let entries = [entry("A", false, 0, 0), entry("B", false, 0, 1)];
    Ok(Table::new(Vec::from_array(alloc, entries)?)?)
}

fn second_table(alloc: Global) -> Result<Table, Fail> {
    let entries = [entry("A", false, 0, 2)];
    Ok(Table::new(Vec::from_array(alloc, entries)?)?)
}

// Two tables: of the entries A and B of the first A leads to node 0 and B to node 1, that of the second to
// node 2.
pub(crate) fn two_tables(alloc: Global) -> Result<Vec<Table>, Fail>
    ensures { IfOk result (λ tables. length tables.items ≡ 2) }
{
    let mut tables = Vec::new(alloc);
    tables.push(first_table(alloc)?)?;
    tables.push(second_table(alloc)?)?;
    Ok(tables)
}

// A grammar of one command, LIST, and of the end of the line.
#[tactic(auto, unfolding(cm_blocks::specs::Fault::grammar_fault, cm_tables::specs::Order::table_fault, cm_text::specs::Case::begins_with, cm_text::specs::Case::equals))]
fn list_grammar(alloc: Global) -> Result<Grammar, Fail> {
    let table = Table::of(vec![in alloc; Entry::new("LIST", 3, 1)]?);
    let command = vec![in alloc; Block::new(Function::Key(0), Role::Verb, 1)]?;
    let end = vec![in alloc; Block::new(Function::Confirm, Role::None, 1)]?;
    let nodes = vec![in alloc; Node::new(command), Node::new(end)]?;
    Ok(Grammar::of(nodes, vec![in alloc; table]?))
}

const LIST: &str = "(None, false, [Block { function: Key(0), flags: Flags { wild: false, \
    all_generations: false, deleted: false, default_all: false, from_source: false, new: false }, \
    help: None, role: Verb, next: 1, once: false }])";

#[test]
fn is_made_of_words(rt: HostRuntime) -> Result<(), Fail> {
    let grammar = list_grammar(rt.alloc())?;
    assert_eq!(rt; grammar.nodes(), 2);
    let node = grammar.node(0);
    let shown = debug_text(
        rt.alloc(),
        &(&node.default, node.raw, node.chain.as_slice()),
    )?;
    assert_eq!(rt; shown.as_str(), LIST);
    Ok(())
}

#[test]
fn gives_its_tables(rt: HostRuntime) -> Result<(), Fail> {
    let nodes = nodes_of(rt.alloc(), "Confirm")?;
    let grammar = Grammar::new(nodes, two_tables(rt.alloc())?)?;
    assert_eq!(rt; (grammar.table(0).len(), grammar.table(1).len()), (2, 1));
    Ok(())
}

// How many nodes there are, and how many blocks the last node has, and its last function.
struct Grammars;

impl Subject for Grammars {
    fn answer(&self, alloc: Global, given: &str) -> Result<String, Fail> {
        let grammar = Grammar::new(nodes_of(alloc, given)?, Vec::new(alloc))?;
        let number = grammar.nodes().checked_sub(1).ok_or("a grammar has nodes")?;
        let chain = grammar.node(number).chain.as_slice();
        let last = chain.last().map(|block| &block.function);
        debug_text(alloc, &(grammar.nodes(), chain.len(), last))
    }
}

const GRAMMARS: &str = "\
    Confirm => (1, 1, Some(Confirm))\n\
    Hook:0 Confirm => (1, 2, Some(Confirm))\n\
    Confirm Hook:2/Hook:0 => (2, 1, Some(Hook(0)))\n\
    Hook:0/Hook:2 Hook:1 Confirm => (2, 3, Some(Confirm))\n\
    Hook:255 Confirm => (1, 2, Some(Confirm))\n\
    Confirm/Word>1 Hook:4 => (2, 2, Some(Hook(4)))";

#[test]
fn gives_its_nodes(rt: HostRuntime) -> Result<(), Fail> {
    hold(rt.alloc(), &Grammars, GRAMMARS)
}

#[test]
fn gives_blocks_back(rt: HostRuntime) -> Result<(), Fail> {
    let mut chain = Blocks::new(chain_of(rt.alloc(), "Word Hook:7")?).into_vec();
    let last = chain.pop().ok_or("two blocks")?;
    assert!(rt; matches!(last.function, Function::Hook(7)));
    assert_eq!(rt; chain.len(), 1);
    Ok(())
}
