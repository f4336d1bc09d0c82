// The grammar, node by node and entry by entry.
use crate::typed::put_flags;
use cm_blocks::{Block, Function, Grammar, Node};
use cm_tables::Table;
use ex_grammar::grammar;
use std::alloc::{AllocError, Global};
use std::test::Fail;

// What a block reads, and the word, table or hook that it is for.
fn put_function(text: &mut String, function: &Function) -> Result<(), AllocError> {
    match function {
        Function::Key(table) => write!(text, "Key({table})"),
        Function::Switch(table) => write!(text, "Switch({table})"),
        Function::Noise(word) => write!(text, "Noise({})", word.as_str()),
        Function::Token(sign) => write!(text, "Token({})", sign.as_str()),
        Function::Number => text.push_str("Number"),
        Function::Word => text.push_str("Word"),
        Function::Numeral(_) => text.push_str("Numeral"),
        Function::Run(_) => text.push_str("Run"),
        Function::Quoted => text.push_str("Quoted"),
        Function::LongQuoted => text.push_str("LongQuoted"),
        Function::Date => text.push_str("Date"),
        Function::User => text.push_str("User"),
        Function::Directory => text.push_str("Directory"),
        Function::InFile => text.push_str("InFile"),
        Function::OutFile => text.push_str("OutFile"),
        Function::AnyFile => text.push_str("AnyFile"),
        Function::Text => text.push_str("Text"),
        Function::Confirm => text.push_str("Confirm"),
        Function::Comma => text.push_str("Comma"),
        Function::Hook(id) => write!(text, "Hook({id})"),
    }
}

fn put_block(text: &mut String, block: &Block) -> Result<(), AllocError> {
    let help = if block.help.is_some() { " helped" } else { "" };
    text.push(' ')?;
    put_function(text, &block.function)?;
    put_flags(text, block.flags)?;
    write!(text, " {:?} {}{help};", block.role, block.next)
}

fn put_node(text: &mut String, node: &Node) -> Result<(), AllocError> {
    for block in node.chain.as_slice() {
        put_block(text, block)?;
    }
    if let Some(default) = &node.default {
        write!(text, " default {}", default.as_str())?;
    }
    if node.raw {
        text.push_str(" raw")?;
    }
    Ok(())
}

fn nodes(alloc: Global, grammar: &Grammar) -> Result<String, AllocError> {
    let mut text = String::new(alloc);
    for number in 0..grammar.nodes() {
        write!(text, "\n{number}")?;
        put_node(&mut text, grammar.node(number))?;
    }
    Ok(text)
}

#[test]
fn each_node_has_its_blocks(rt: HostRuntime) -> Result<(), Fail> {
    let grammar = grammar(rt.alloc())?;
    assert_eq!(rt;
        nodes(rt.alloc(), &grammar)?.as_str(),
        "
0 Confirm None 5; Key(0) Verb 5;
1 Noise(FROM) None 2;
2 Token(TTY:) Source 3; InFile w Source 3;
3 Noise(TO) None 4;
4 OutFile ws Target 5;
5 Confirm None 5;
6 Noise(FROM) None 7;
7 InFile w Source 8;
8 Noise(TO) None 9;
9 AnyFile Target 5;
10 Noise(EXISTING FILE) None 11;
11 InFile w Source 12;
12 Noise(TO) None 4;
13 Noise(FILES) None 14;
14 InFile wa Files 5;
15 Noise(FILES) None 16;
16 InFile wad Files 5;
17 Noise(TO DIRECTORY) None 18;
18 User Files 5; Directory Files 5; default <OPERATOR>
19 Noise(FILES) None 20;
20 InFile w Files 5;
21 Noise(COMMANDS FROM) None 22;
22 InFile Files 5;
23 Noise(OF FILES) None 24;
24 Comma Sub 5; AnyFile wae Files 25; default *.*.*
25 Comma Sub 5; Confirm None 5;
26 Noise(ABOUT) None 27;
27 Key(1) What 5;
28 Noise(LOGICAL NAME) None 29;
29 Hook(0) Value 30;
30 Token(:) None 31;
31 Noise(AS) None 32;
32 Confirm None 5; Directory Files 5;
33 Noise(DIRECTORY) None 34;
34 Directory n Files 25;
35 Noise(DELETED FILES) None 36;
36 Confirm None 5; Directory Files 5;
37 Noise(FILES) None 38;
38 InFile w Files 39;
39 Switch(4) Value 5; Confirm None 5;
40 Date Value 39;
41 Number Value 39;
42 Hook(1) Value 39;
43 Word Value 39;
44 Quoted Value 39;
45 Text None 5; raw
46 Confirm None 5; Key(2) Verb 5;
47 Date Value 5;
48 Confirm None 5; Key(3) Verb 5;
49 Noise(TO KEEP) None 50;
50 Hook(2) Value 5;
51 Key(5) None 5;
52 Key(6) None 5;
53 Noise(OF FILES) None 54;
54 InFile wa Files 55;
55 Noise(TO) None 56;
56 Hook(2) Value 5;"
    );
    Ok(())
}

fn entries(alloc: Global, table: &Table) -> Result<String, AllocError> {
    let mut text = String::new(alloc);
    for entry in table.entries() {
        let name = entry.text.as_str();
        let value = if entry.colon { ":" } else { "" };
        write!(
            text,
            "\n{name}{value} {:?} {} {}",
            entry.flag, entry.code, entry.next
        )?;
    }
    Ok(text)
}

#[test]
#[tactic(auto, unfolding(ex_grammar::specs::Graph::exec_graph, ex_grammar::specs::Tables::exec_tables))]
fn each_entry_has_its_code(rt: HostRuntime) -> Result<(), Fail> {
    let grammar = grammar(rt.alloc())?;
    assert_eq!(rt;
        entries(rt.alloc(), grammar.table(0))?.as_str(),
        "
APPEND Plain 1 6
BUILD Plain 2 33
CONNECT Plain 3 17
COPY Plain 4 1
DEFINE Plain 5 28
DELETE Plain 6 13
DIRECTORY Plain 7 23
EXPUNGE Plain 8 35
INFORMATION Plain 9 26
KJOB Invisible 10 5
L NoRecognise 0 5
LO NoRecognise 0 5
LOGOUT Plain 10 5
PRINT Plain 11 37
REMARK Plain 12 45
RENAME Plain 13 10
SET Plain 17 51
T Short(19) 0 5
TAKE Plain 14 21
TYPE Plain 15 19
UNDELETE Plain 16 15"
    );
    Ok(())
}

#[test]
#[tactic(auto, unfolding(ex_grammar::specs::Graph::exec_graph, ex_grammar::specs::Tables::exec_tables))]
fn each_part_has_its_code(rt: HostRuntime) -> Result<(), Fail> {
    let grammar = grammar(rt.alloc())?;
    assert_eq!(rt;
        entries(rt.alloc(), grammar.table(1))?.as_str(),
        "
DIRECTORY Plain 1 5
LOGICAL-NAMES Plain 2 5
OUTPUT-REQUESTS Plain 3 5
VERSION Plain 4 5"
    );
    assert_eq!(rt;
        entries(rt.alloc(), grammar.table(2))?.as_str(),
        "
BEFORE Plain 1 47
DELETED Plain 2 5
READ Plain 4 5
SINCE Plain 3 47"
    );
    assert_eq!(rt;
        entries(rt.alloc(), grammar.table(3))?.as_str(),
        "\nGENERATIONS Plain 1 49"
    );
    assert_eq!(rt;
        entries(rt.alloc(), grammar.table(4))?.as_str(),
        "
AFTER: Plain 1 40
COPIES: Plain 2 41
FORMS: Plain 3 42
JOBNAME: Plain 4 43
NOTE: Plain 5 44"
    );
    assert_eq!(rt;
        entries(rt.alloc(), grammar.table(5))?.as_str(),
        "\nFILE Plain 1 52"
    );
    assert_eq!(rt;
        entries(rt.alloc(), grammar.table(6))?.as_str(),
        "\nGENERATION-RETENTION-COUNT Plain 1 53"
    );
    Ok(())
}
