// Runs of a program of two grammars.
use crate::panel::{DISABLE, ENABLE, ERASE, Panel};
use cm_blocks::{Block, Function, Grammar, Node, Role};
use cm_files::OneDirectory;
use cm_io::{MemSink, MemSource};
use cm_run::run_over_streams;
use cm_tables::{Entry, Table};
use std::alloc::Global;
use std::test::Fail;

// Nothing, or one of these keywords.
fn grammar_of(entries: Vec<Entry>, alloc: Global) -> Result<Grammar, Fail> {
    let command = Block::new(Function::Key(0), Role::Verb, 1);
    let nodes = vec![in alloc;
        Node::new(vec![in alloc; Block::confirm(1), command]?),
        Node::new(vec![in alloc; Block::confirm(1)]?),
    ]?;
    Ok(Grammar::new(nodes, vec![in alloc; Table::new(entries)?]?)?)
}

fn panel(alloc: Global) -> Result<Panel, Fail> {
    let ordinary = vec![in alloc; Entry::new("ENABLE", ENABLE, 1)]?;
    let enabled = vec![in alloc;
        Entry::new("DISABLE", DISABLE, 1),
        Entry::new("ERASE", ERASE, 1),
    ]?;
    Ok(Panel {
        ordinary: grammar_of(ordinary, alloc)?,
        enabled: grammar_of(enabled, alloc)?,
        names: OneDirectory::nothing(),
        is_enabled: false,
    })
}

// Runs these keys, and fails where the screen is not this.
fn try_case(runtime: &HostRuntime, keys: &[u8], screen: &[u8]) -> Result<(), Fail> {
    let alloc = runtime.alloc();
    let mut panel = panel(alloc)?;
    let mut source = MemSource::new(alloc, keys, None)?;
    let mut sink = MemSink::new(alloc, 1000)?;
    let result = run_over_streams(runtime, &mut panel, &mut source, &mut sink);
    if result == Ok(()) && sink.bytes() == screen {
        return Ok(());
    }
    Err(Fail::new(format_args!("after {:?}: {:?}", keys, sink.bytes())))
}

#[test]
fn each_line_is_parsed_under_the_grammar_of_its_mode(rt: HostRuntime) -> Result<(), Fail> {
    for (keys, screen) in [
        ("ERASE\r", "@ERASE\r\n?Unrecognized keyword\r\n@"),
        ("ENABLE\rERASE\r", "@ENABLE\r\n@ERASE\r\nerased\r\n@"),
        (
            "ENABLE\rENABLE\r",
            "@ENABLE\r\n@ENABLE\r\n?Unrecognized keyword\r\n@",
        ),
        (
            "EN\rDIS\rERASE\r",
            "@EN\r\n@DIS\r\n@ERASE\r\n?Unrecognized keyword\r\n@",
        ),
        // A line that is empty or refused leaves the mode.
        (
            "ENABLE\r\rX\rE\r",
            "@ENABLE\r\n@\r\n@X\r\n?Unrecognized keyword\r\n@E\r\nerased\r\n@",
        ),
    ] {
        try_case(&rt, keys.as_bytes(), screen.as_bytes())?;
    }
    Ok(())
}

#[test]
fn each_key_is_answered_from_the_grammar_of_its_mode(rt: HostRuntime) -> Result<(), Fail> {
    for (keys, screen) in [
        // ESC completes the same byte to another keyword.
        ("E\x1b\r", "@ENABLE \r\n@"),
        ("E\x1b\rE\x1b\r", "@ENABLE \r\n@ERASE \r\nerased\r\n@"),
        // And `?` lists others.
        (
            "?",
            "@? confirm with carriage return\r\n or one of the following:\r\n  ENABLE\r\n@",
        ),
        (
            "E\r?",
            "@E\r\n@? confirm with carriage return\r\n or one of the following:\r\n  DISABLE\r\n  ERASE\r\n@",
        ),
    ] {
        try_case(&rt, keys.as_bytes(), screen.as_bytes())?;
    }
    Ok(())
}
