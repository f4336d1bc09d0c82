// The grammar of the sessions, which asks no hook.
use cm_blocks::{Block, Function, Grammar, Role, push_nodes};
use cm_tables::{Entry, Table};
use std::alloc::Global;
use std::test::Fail;

// `DELETE`, and `DIRECTORY (OF) text`.
pub(crate) fn grammar_of(alloc: Global) -> Result<Grammar, Fail> {
    let commands = Table::new(vec![in alloc;
        Entry::new("DELETE", 0, 1),
        Entry::new("DIRECTORY", 1, 2),
    ]?)?;
    let mut nodes = Vec::new(alloc);
    push_nodes(&mut nodes, blocks(alloc)?, alloc)?;
    Ok(Grammar::new(nodes, vec![in alloc; commands]?)?)
}

// The blocks of the nodes, one each.
fn blocks(alloc: Global) -> Result<Vec<Block>, Fail> {
    Ok(vec![in alloc;
        Block::new(Function::Key(0), Role::None, 1),
        Block::confirm(1),
        Block::guide("OF", 3),
        Block::new(Function::Text, Role::None, 1),
    ]?)
}
