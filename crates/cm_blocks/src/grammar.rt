// Grammars.
ghost use Rattle.std.specs.Prelude.{◌≡◌, ◌<◌, Some, None, MatchResult, length, option_copied, slice_get};
ghost use Rattle.cm_blocks.specs.Default.{default_fault, first_fault};
ghost use Rattle.cm_blocks.specs.Fault.{grammar_fault};
ghost use Rattle.cm_blocks.specs.Grammar.{Graph};
ghost use Rattle.cm_blocks.specs.Once.{block_at};
ghost use Rattle.cm_blocks.specs.Well.{AreTables, IsWell};

use crate::fault::grammar_fault;
use crate::{Block, Node};
use cm_tables::Table;
use std::marker::Model;
use thiserror::Error;

/// Why nodes and tables are no grammar. A number is that of the node at fault, from 0.
#[derive(Debug, PartialEq, Eq, Drop, Error)]
pub enum GrammarFault {
    /// There is no node, or there are more than 1,024 nodes or 64 tables.
    #[error("TooMany")]
    TooMany,
    /// The node has no block.
    #[error("EmptyChain")]
    EmptyChain(u16),
    /// The node has more than 16 blocks.
    #[error("ChainLong")]
    ChainLong(u16),
    /// A block names a table that is not there.
    #[error("TableRange")]
    TableRange(u16),
    /// A block, or an entry of its table, leads to a node that is not there.
    #[error("NextRange")]
    NextRange(u16),
    /// A default, the name of what is awaited, a help text, a guide word or a token has a byte that is no printing
    /// one or is `?`; or a guide word or a token is empty; or a guide word has a parenthesis.
    #[error("BadText")]
    BadText(u16),
    /// A block reads runs of no byte, or of CR, the join byte or `?`.
    #[error("BadBytes")]
    BadBytes(u16),
    /// A block reads numbers of no range, or beyond the limit.
    #[error("BadNumbers")]
    BadNumbers(u16),
    /// A block takes all generations and no wildcards.
    #[error("BadFlags")]
    BadFlags(u16),
    /// No block of any node confirms a line.
    #[error("NoConfirm")]
    NoConfirm,
    /// No block of the node takes its default, and each is plain, as `Grammar::bad_default` says.
    #[error("BadDefault")]
    BadDefault(u16),
}

/// A grammar: nodes, each a chain of function blocks, and the keyword tables that they name. Contracts see
/// the lists of both.
#[derive(Debug, Drop)]
pub struct Grammar {
    nodes: Vec<Node>,
    tables: Vec<Table>,
}

impl Model for Grammar {
    ghost use Rattle.std.specs.Prelude.{◌≡◌, None};
    ghost use Rattle.cm_blocks.specs.Fault.{grammar_fault};
    ghost use Rattle.cm_blocks.specs.Grammar.{Graph};
    ghost use Rattle.cm_blocks.specs.Well.{AreTables};

    ghost Value = { Graph };

    ghost view = { λ grammar. record { nodes = grammar.nodes.items; tables = grammar.tables.items } };

    ghost invariant = { λ grammar. (grammar_fault
        (record { nodes = grammar.nodes.items; tables = grammar.tables.items }) ≡ None)
        × AreTables grammar.tables.items };
}

impl Grammar {
    /// The grammar with these nodes and tables, or the first fault: the numbers of nodes and tables, then for the
    /// least node at fault its chain, tables, next nodes, texts, bytes, numbers and flags in this order, then that
    /// none confirms, then the default of the least node that has a bad one (`bad_default`).
    pub fn new(nodes: Vec<Node>, tables: Vec<Table>) -> Result<Grammar, GrammarFault>
        // [grammar-fault]
        ensures { MatchResult result
            (λ grammar. (grammar_fault grammar ≡ None) × (default_fault grammar ≡ None)
            × (grammar ≡ record { nodes = nodes.items; tables = tables.items }))
            (λ fault. first_fault (record { nodes = nodes.items; tables = tables.items }) ≡ Some fault) }
    {
        match grammar_fault(&nodes, &tables) {
            Some(fault) => Err(fault),
            None => with_defaults(Grammar::of(nodes, tables)),
        }
    }

    /// The grammar with nodes and tables that are known to have no fault, as a program's own are, whose proof computes
    /// that. Its defaults are as they are: `bad_default` tells of one that its node does not take.
    pub fn of(nodes: Vec<Node>, tables: Vec<Table>) -> Grammar
        requires { grammar_fault (record { nodes = nodes.items; tables = tables.items }) ≡ None }
        ensures { result ≡ record { nodes = nodes.items; tables = tables.items } }
    {
        have_no_fault(&tables);
        Grammar { nodes, tables }
    }

    /// Hands what `new` saw to on to a proof: the grammar has no fault. It does nothing.
    pub fn has_no_fault(&self)
        ensures { grammar_fault self.now ≡ None }
    {
        let _ = &self.nodes;
    }

    /// Hands on to a proof what each table's own `new` saw to: none has a fault. It does nothing.
    pub fn has_tables(&self)
        ensures { AreTables self.now.tables }
    {
        let _ = &self.tables;
    }

    /// How many nodes there are.
    pub fn nodes(&self) -> u16
        ensures { result ≡ length self.now.nodes }
    {
        self.nodes.len() as u16
    }

    /// A node, by its number from 0.
    pub fn node(&self, number: u16) -> &Node
        requires { number < length self.now.nodes }
        ensures value { slice_get self.now.nodes number ≡ Some result.now }
        // Its blocks name tables and nodes that are there.
        ensures well { IsWell self.now result.now }
    {
        &self.nodes[usize::from(number)]
    }

    /// A keyword table, by its number from 0.
    pub fn table(&self, number: u16) -> &Table
        requires { number < length self.now.tables }
        ensures { slice_get self.now.tables number ≡ Some result.now }
    {
        &self.tables[usize::from(number)]
    }

    // A block of a node, by both numbers.
    pub(crate) fn block(&self, node: u16, block: u8) -> Option<&Block>
        ensures { option_copied result ≡ block_at self.now node block }
    {
        match self.nodes.get(usize::from(node)) {
            Some(node) => node.chain.as_slice().get(usize::from(block)),
            None => None,
        }
    }
}

// The grammar, or the fault of its first bad default.
fn with_defaults(grammar: Grammar) -> Result<Grammar, GrammarFault>
    ensures { MatchResult result
        (λ made. (default_fault made ≡ None) × (made ≡ grammar))
        (λ fault. default_fault grammar ≡ Some fault) }
{
    match grammar.bad_default() {
        Some(number) => Err(GrammarFault::BadDefault(number)),
        None => Ok(grammar),
    }
}

// Hands on to a proof that none of these tables has a fault.
fn have_no_fault(tables: &[Table])
    ensures { AreTables tables.now }
{
    for table in tables {
        table.has_no_fault();
    }
}
