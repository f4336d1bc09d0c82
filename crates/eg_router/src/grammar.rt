// The grammar of the router.
ghost use Rattle.std.specs.Prelude.{◌≡◌, IfOk};
ghost use Rattle.eg_router.specs.Graph.{address_node, blocks, keyword, lines, router_nodes};

use crate::rules::{IPV4, NAME, NEW_NAME};
use crate::tables::tables;
use cm_blocks::{Block, Function, Grammar, Node, Role, push_nodes};
use cm_io::NoMemory;
use cm_run::Known;
use cm_text::Name;
use std::alloc::Global;

// The codes of the keywords. TERMINAL has that of CONFIGURE, and INTERFACES that of INTERFACE.
pub(crate) const ADDRESS: u16 = 1;

pub(crate) const CONFIGURE: u16 = 2;

pub(crate) const DESCRIPTION: u16 = 3;

pub(crate) const ENABLE: u16 = 4;

pub(crate) const END: u16 = 5;

pub(crate) const EXIT: u16 = 6;

pub(crate) const INTERFACE: u16 = 7;

pub(crate) const NO: u16 = 8;

pub(crate) const ROUTER: u16 = 9;

pub(crate) const RUNNING: u16 = 10;

pub(crate) const SHOW: u16 = 11;

pub(crate) const SHUTDOWN: u16 = 12;

pub(crate) const VERSION: u16 = 13;

// The nodes where the lines of each mode begin, and that where a line ends.
pub(crate) const USER_LINES: u16 = 0;

pub(crate) const PRIVILEGED_LINES: u16 = 1;

pub(crate) const CONFIGURATION_LINES: u16 = 2;

pub(crate) const INTERFACE_LINES: u16 = 3;

pub(crate) const PROTOCOL_LINES: u16 = 4;

pub(crate) const LINE_END: u16 = 5;

/// The grammar of the router: for each mode the node where its lines begin.
pub struct RouterGrammar;

impl Known for RouterGrammar {
    ghost use Rattle.eg_router.specs.Graph.{router_graph};

    ghost graph = { router_graph };

    #[tactic(auto, using(crate::proofs::Faultless::graph_has_no_fault), unfolding(crate::specs::Graph::router_graph))]
    fn make(alloc: Global) -> Result<Grammar, NoMemory> {
        let tables = tables(alloc)?;
        Ok(Grammar::of(nodes(alloc)?, tables))
    }
}

// Nodes 0 to 4, where a line of each mode begins with nothing or a command; those of one block; and the address.
#[tactic(auto, unfolding(crate::specs::Graph::router_nodes, crate::specs::Graph::first_nodes))]
fn nodes(alloc: Global) -> Result<Vec<Node>, NoMemory>
    ensures { IfOk result (λ nodes. nodes.items ≡ router_nodes) }
{
    let mut nodes = vec![in alloc;
        lines(0, alloc)?,
        lines(1, alloc)?,
        lines(2, alloc)?,
        lines(3, alloc)?,
        lines(4, alloc)?,
    ]?;
    push_nodes(&mut nodes, blocks(alloc)?, alloc)?;
    nodes.push(address_node(alloc)?)?;
    Ok(nodes)
}

// Nothing, or a keyword of this table.
fn lines(table: u16, alloc: Global) -> Result<Node, NoMemory>
    ensures { IfOk result (λ node. node ≡ lines table) }
{
    Ok(Node::new(vec![in alloc; Block::confirm(LINE_END), keyword(table, Role::Verb)]?))
}

// Nodes 5 to 13, of one block each: the end of a line; CONFIGURE; SHOW; NO and what it takes back; INTERFACE; ROUTER;
// the description.
#[tactic(auto, unfolding(crate::specs::Graph::blocks))]
fn blocks(alloc: Global) -> Result<Vec<Block>, NoMemory>
    ensures { IfOk result (λ items. items.items ≡ blocks) }
{
    Ok(vec![in alloc;
        Block::confirm(LINE_END),
        keyword(5, Role::None),
        keyword(6, Role::What),
        keyword(7, Role::What),
        Block::new(Function::Hook(NAME), Role::Files, LINE_END),
        keyword(8, Role::What),
        Block::new(Function::Hook(NEW_NAME), Role::Files, LINE_END),
        Block::new(Function::Word, Role::Value, LINE_END),
        Block::new(Function::Quoted, Role::Value, LINE_END),
    ]?)
}

// A keyword of this table.
fn keyword(table: u16, role: Role) -> Block
    ensures { result ≡ keyword table role }
{
    Block::new(Function::Key(table), role, LINE_END)
}

// Node 14: an address. A line that ends before it is told that.
fn address_node(alloc: Global) -> Result<Node, NoMemory>
    ensures { IfOk result (λ node. node ≡ address_node) }
{
    let address = Block::new(Function::Hook(IPV4), Role::Value, LINE_END);
    Ok(Node {
        awaits: Some(Name::new("address")),
        ..Node::new(vec![in alloc; address]?)
    })
}
