// The grammar of mail.
ghost use Rattle.std.specs.Prelude.{◌≡◌, IfOk};
ghost use Rattle.mm_mail.specs.Graph.{blocks, command_entries, mail_graph, mail_nodes};

use cm_blocks::{Block, Function, Grammar, Node, Role, push_nodes};
use cm_io::NoMemory;
use cm_run::Known;
use cm_tables::{Entry, Table};
use std::alloc::Global;

// The codes of the commands.
pub(crate) const DELETE: u16 = 1;

pub(crate) const HEADERS: u16 = 2;

pub(crate) const QUIT: u16 = 3;

pub(crate) const READ: u16 = 4;

pub(crate) const SEND: u16 = 5;

// The node where a line begins, those after the commands that want a message and a receiver, and that where it ends.
pub(crate) const COMMANDS: u16 = 0;

const MESSAGE: u16 = 1;

const RECEIVER: u16 = 3;

const LINE_END: u16 = 5;

/// The grammar of mail: `DELETE (MESSAGE) number`, `HEADERS`, `QUIT`, `READ (MESSAGE) number`,
/// `SEND (TO) user (ABOUT) "subject"`, and an empty line.
#[tactic(auto, using(crate::proofs::Faultless::graph_has_no_fault), unfolding(crate::specs::Graph::mail_graph))]
pub fn mail_grammar(alloc: Global) -> Result<Grammar, NoMemory>
    ensures { IfOk result (λ grammar. grammar ≡ mail_graph) }
{
    let tables = vec![in alloc; commands(alloc)?]?;
    Ok(Grammar::of(nodes(alloc)?, tables))
}

/// The same, as mail holds it.
pub struct MailGrammar;

impl Known for MailGrammar {
    ghost use Rattle.mm_mail.specs.Graph.{mail_graph};

    ghost graph = { mail_graph };

    fn make(alloc: Global) -> Result<Grammar, NoMemory> {
        mail_grammar(alloc)
    }
}

// The commands, each with the node after it.
#[tactic(auto, unfolding(crate::specs::Graph::command_entries, cm_tables::specs::Order::table_fault))]
fn commands(alloc: Global) -> Result<Table, NoMemory>
    ensures { IfOk result (λ table. table ≡ command_entries) }
{
    Ok(Table::of(vec![in alloc;
        Entry::new("DELETE", DELETE, MESSAGE),
        Entry::new("HEADERS", HEADERS, LINE_END),
        Entry::new("QUIT", QUIT, LINE_END),
        Entry::new("READ", READ, MESSAGE),
        Entry::new("SEND", SEND, RECEIVER),
    ]?))
}

// At node 0 a line begins, with nothing or a command.
#[tactic(auto, unfolding(crate::specs::Graph::mail_nodes))]
fn nodes(alloc: Global) -> Result<Vec<Node>, NoMemory>
    ensures { IfOk result (λ nodes. nodes.items ≡ mail_nodes) }
{
    let command = Block::new(Function::Key(0), Role::Verb, LINE_END);
    let first = Node::new(vec![in alloc; Block::confirm(LINE_END), command]?);
    let mut nodes = vec![in alloc; first]?;
    push_nodes(&mut nodes, blocks(alloc)?, alloc)?;
    Ok(nodes)
}

// Nodes 1 to 7, of one block each: the number of a message; a receiver; the end of a line; and a subject.
#[tactic(auto, unfolding(crate::specs::Graph::blocks))]
fn blocks(alloc: Global) -> Result<Vec<Block>, NoMemory>
    ensures { IfOk result (λ items. items.items ≡ blocks) }
{
    Ok(vec![in alloc;
        Block::guide("MESSAGE", 2),
        Block::new(Function::Hook(0), Role::Value, LINE_END),
        Block::guide("TO", 4),
        Block::new(Function::User, Role::Files, 6),
        Block::confirm(LINE_END),
        Block::guide("ABOUT", 7),
        Block::new(Function::Quoted, Role::Value, LINE_END),
    ]?)
}
