// The grammars of languages, by example. In a case `^` ends a line of the text.
use crate::cases::{given, is_wanted};
use cm_blocks::{Block, Function, Grammar, Node};
use cm_graph::{GraphFault, draw};
use cm_language::places_of;
use cm_synopsis::{Command, Way, read_language, way_of};
use std::alloc::Global;
use std::process::Abort;
use std::test::Fail;

// A text; its nodes, each with its blocks, the node behind each (and `*` where a line has an entry once, `?` and the
// help), and `!` and what the node awaits.
const GRAPHS: &str = "\
SHOW~Key(0)>0;Confirm>0;
A [B] C~Key(0)>0;Key(1)>0;Key(2)>0;Confirm>0;
b^A~Key(0)>0;Confirm>0;Confirm>0;
A x:number 1-5~Key(0)>0;Numeral(Numbers { radix: Decimal, signed: false, least: 1, most: 5 })>2!x;Confirm>0;
A x:number -- sets~Key(0)>0;Number>2!x;Confirm>0;
A [B] -- last~Key(0)>0;Confirm>0Key(1)>0;Confirm>0;
A {/B|/M: x:word}~Key(0)>0;Confirm>0Switch(1)>0*;Confirm>0Switch(1)>0*;Word>4?x!x;Confirm>0Switch(1)>0*;
A (TO) x:<ipv4|word>~Key(0)>0;guide TO>2;Hook(0)>3Word>3?x!x;Confirm>0;
list a b^A x:a ..~Key(0)>0;Hook(5)>2?x!x;Confirm>0Hook(5)>2?x;
A <x:number|y:word>~Key(0)>0;Number>2Word>3?y!x;Confirm>0;Confirm>0;
A {B|C} [D]~Key(0)>0;Confirm>0Key(1)>0*Key(2)>0;Confirm>0Key(1)>0*Key(2)>0;Confirm>0Key(1)>0*Key(2)>0;Confirm>0;
A B^A C~Key(0)>0;Key(1)>0;Confirm>0;Confirm>0;
A x:quoted [/S y:ipv6/len]~Key(0)>0;LongQuoted>2!x;Confirm>0Switch(1)>0;Hook(3)>4!y;Confirm>0;";

// A text, and the first fault of its grammar: the command, the one that it meets, and the reason.
const FAULTS: &str = "\
[A]~0 0 EmptyLine
A^[B]~1 1 EmptyLine
A^a~1 0 SameLine
A [B]^A~1 0 SameLine
A x:word^A y:word~1 0 Clash
A [(TO) x:word] y:word~0 0 Clash
A (TO) x:word^A (OF) y:word~1 0 Clash
A_B~0 0 BadKeyword
A /b.c~0 0 BadKeyword
A -- why?~0 0 BadHelp
A^B -- 1234567890123456789012345678901234567890~1 1 BadHelp
A <x:<word|word|word|word|word|word|word|word>|y:<date|date|date|date|date|date|date|date>|z:word>~0 0 LongChain";

fn function_text(alloc: Global, function: &Function) -> Result<String, Fail> {
    match function {
        Function::Noise(word) => Ok(format!(in alloc; "guide {}", word.as_str())?),
        _ => Ok(format!(in alloc; "{function:?}")?),
    }
}

fn put_block(alloc: Global, block: &Block, text: &mut String) -> Result<(), Fail> {
    text.push_str(function_text(alloc, &block.function)?.as_str())?;
    text.push_str(format!(in alloc; ">{}", block.next)?.as_str())?;
    if block.once {
        text.push_str("*")?;
    }
    if let Some(help) = &block.help {
        text.push_str("?")?;
        text.push_str(help.as_str())?;
    }
    Ok(())
}

fn put_node(alloc: Global, node: &Node, text: &mut String) -> Result<(), Fail> {
    for block in node.chain.as_slice() {
        put_block(alloc, block, text)?;
    }
    if let Some(name) = &node.awaits {
        text.push_str("!")?;
        text.push_str(name.as_str())?;
    }
    text.push_str(";")?;
    Ok(())
}

fn graph_text(alloc: Global, grammar: &Grammar) -> Result<String, Fail> {
    let mut text = String::new(alloc);
    for number in 0..grammar.nodes() {
        put_node(alloc, grammar.node(number), &mut text)?;
    }
    Ok(text)
}

fn shown(alloc: Global, drawn: &Result<Grammar, GraphFault>) -> Result<String, Fail> {
    match drawn {
        Ok(grammar) => graph_text(alloc, grammar),
        Err(fault) => Ok(format!(in alloc;
            "{} {} {:?}",
            fault.command, fault.other, fault.reason
        )?),
    }
}

fn ways_of(alloc: Global, commands: &[Command]) -> Result<Vec<Way>, Fail> {
    let mut ways = Vec::new(alloc);
    for command in commands {
        ways.push(way_of(alloc, &command.parts)?)?;
    }
    Ok(ways)
}

// What the grammar of a text is shown as.
fn drawn_text(alloc: Global, text: &[u8]) -> Result<String, Fail> {
    let language = read_language(alloc, text)?.ok().ok_or("a fault")?;
    let ways = ways_of(alloc, language.commands())?;
    let places = places_of(alloc, language.commands(), &ways)
        .ok()
        .ok_or("no places")?;
    let drawn = draw(alloc, language.commands(), &ways, &places)?;
    shown(alloc, &drawn)
}

fn draws(rt: &impl Abort, alloc: Global, case: &str) -> Result<(), Fail> {
    let mut text = Vec::new(alloc);
    for byte in given(rt, case).as_bytes() {
        text.push(if *byte == b'^' { b'\n' } else { *byte })?;
    }
    is_wanted(rt, case, drawn_text(alloc, &text)?.as_str());
    Ok(())
}

// [language-graph]
#[test]
fn draws_grammars(rt: HostRuntime) -> Result<(), Fail> {
    for case in GRAPHS.split('\n') {
        draws(&rt, rt.alloc(), case)?;
    }
    Ok(())
}

#[test]
fn tells_faults_of_grammars(rt: HostRuntime) -> Result<(), Fail> {
    for case in FAULTS.split('\n') {
        draws(&rt, rt.alloc(), case)?;
    }
    Ok(())
}

// 65 places with a keyword of their own want a table each.
#[test]
fn has_a_limit_of_tables(rt: HostRuntime) -> Result<(), Fail> {
    let alloc = rt.alloc();
    let mut text = String::new(alloc);
    for number in 0..65 {
        text.push_str(format!(in alloc; "K{number} ")?.as_str())?;
    }
    assert_eq!(rt;
        drawn_text(alloc, text.as_bytes())?.as_str(),
        "0 0 ManyTables"
    );
    Ok(())
}
