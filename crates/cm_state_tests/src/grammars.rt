// Grammars that are written as text.
mod functions;
mod nodes;
mod tables;
mod texts;

use cm_blocks::Grammar;
use std::alloc::Global;
use std::test::Fail;

// The EXEC's grammar, with a word in the place of a file. A node that no test comes to confirms.
pub(crate) fn exec(alloc: Global) -> Result<Grammar, Fail> {
    Ok(Grammar::new(
        nodes::nodes(alloc, texts::EXEC_NODES, 51)?,
        tables::tables(alloc, texts::EXEC_TABLES)?,
    )?)
}

// A grammar with fields of all kinds.
pub(crate) fn fields(alloc: Global) -> Result<Grammar, Fail> {
    Ok(Grammar::new(
        nodes::nodes(alloc, texts::FIELD_NODES, 41)?,
        tables::tables(alloc, texts::FIELD_TABLES)?,
    )?)
}

// A grammar with an address and a path.
pub(crate) fn addresses(alloc: Global) -> Result<Grammar, Fail> {
    Ok(Grammar::new(
        nodes::nodes(alloc, texts::ADDRESS_NODES, 3)?,
        Vec::new(alloc),
    )?)
}

// A grammar with the name of a port.
pub(crate) fn ports(alloc: Global) -> Result<Grammar, Fail> {
    Ok(Grammar::new(nodes::nodes(alloc, texts::PORT_NODES, 2)?, Vec::new(alloc))?)
}

// A grammar with numbers of each radix.
pub(crate) fn numbers(alloc: Global) -> Result<Grammar, Fail> {
    Ok(Grammar::new(
        nodes::nodes(alloc, texts::NUMBER_NODES, 5)?,
        Vec::new(alloc),
    )?)
}

// A grammar whose nodes have defaults, with two fields of each of two roles.
pub(crate) fn said(alloc: Global) -> Result<Grammar, Fail> {
    Ok(Grammar::new(nodes::nodes(alloc, texts::SAID_NODES, 7)?, Vec::new(alloc))?)
}

// A grammar with a command whose options come in any order, each once.
pub(crate) fn options(alloc: Global) -> Result<Grammar, Fail> {
    Ok(Grammar::new(
        nodes::nodes(alloc, texts::OPTION_NODES, 7)?,
        tables::tables(alloc, texts::OPTION_TABLES)?,
    )?)
}
