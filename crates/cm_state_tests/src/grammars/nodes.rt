// Nodes: one a line, with its number before its blocks.
use super::functions::{function, some_name};
use cm_blocks::{Block, Blocks, Node, Role};
use cm_files::Flags;
use std::alloc::Global;
use std::test::Fail;

// So many nodes. One that has no line confirms.
pub(crate) fn nodes(alloc: Global, text: &str, count: u16) -> Result<Vec<Node>, Fail> {
    let mut nodes = Vec::new(alloc);
    for number in 0..count {
        nodes.push(node(alloc, line_of(text, number).unwrap_or("confirm > 5"))?)?;
    }
    Ok(nodes)
}

// What is after this number.
fn line_of(text: &str, number: u16) -> Option<&str> {
    for line in text.lines() {
        let (front, blocks) = line.split_once(' ')?;
        if front.parse() == Ok(number) {
            return Some(blocks);
        }
    }
    None
}

// A node: its blocks, after ` = ` its default, and after ` ~ ` what it says that it awaits. One before whose blocks
// stands `raw` has no comments.
fn node(alloc: Global, text: &str) -> Result<Node, Fail> {
    let (text, awaits) = text.split_once(" ~ ").unwrap_or((text, ""));
    let (blocks, default) = text.split_once(" = ").unwrap_or((text, ""));
    Ok(Node {
        chain: Blocks::new(chain(alloc, blocks.strip_prefix("raw ").unwrap_or(blocks))?),
        default: some_name(default),
        raw: blocks.starts_with("raw "),
        awaits: some_name(awaits),
    })
}

fn chain(alloc: Global, text: &str) -> Result<Vec<Block>, Fail> {
    let mut blocks = Vec::new(alloc);
    for part in text.split(" / ") {
        blocks.push(block(part).ok_or("a block")?)?;
    }
    Ok(blocks)
}

// A block: its function, after ` > ` the node that follows, its role and its flags, among them `once`, and after ` ? `
// its help.
fn block(text: &str) -> Option<Block> {
    let (text, help) = text.split_once(" ? ").unwrap_or((text, ""));
    let (kind, rest) = text.split_once(" > ")?;
    let (next, marks) = rest.split_once(' ').unwrap_or((rest, ""));
    Some(Block {
        function: function(kind)?,
        flags: flags(marks),
        help: some_name(help),
        role: role(marks),
        next: next.parse().ok()?,
        once: marks.contains("once"),
    })
}

fn flags(marks: &str) -> Flags {
    Flags {
        wild: marks.contains("wild"),
        all_generations: marks.contains("all"),
        deleted: marks.contains("deleted"),
        default_all: false,
        from_source: false,
        new: marks.contains("new"),
    }
}

fn role(marks: &str) -> Role {
    match marks {
        "Verb" => Role::Verb,
        "What" => Role::What,
        "Value" => Role::Value,
        "Own3" => Role::Own(3),
        _ => Role::None,
    }
}
