// The grammar of the lamps.
ghost use Rattle.std.specs.Prelude.{◌≡◌, IfOk};
ghost use Rattle.eg_lamps.specs.Graph.{blocks, lamp_nodes};

use cm_blocks::{Block, Function, Grammar, Node, Role, push_nodes};
use cm_io::NoMemory;
use cm_run::Known;
use cm_tables::{Entry, Table};
use std::alloc::Global;

// The codes of the commands.
pub(crate) const DIM: u16 = 1;

pub(crate) const LIST: u16 = 2;

pub(crate) const NAME: u16 = 3;

pub(crate) const QUIT: u16 = 4;

pub(crate) const SET: u16 = 5;

// The node where a line begins, and that where it ends.
pub(crate) const COMMANDS: u16 = 0;

const LINE_END: u16 = 2;

/// The grammar of the lamps: `SET (LAMP IN) room (TO) number`, `DIM (LAMP IN) room /BY:number`,
/// `NAME (LAMP IN) room "note"`, `LIST`, `QUIT`, and an empty line.
pub struct LampGrammar;

impl Known for LampGrammar {
    ghost use Rattle.eg_lamps.specs.Graph.{lamp_graph};

    ghost graph = { lamp_graph };

    #[tactic(auto, using(crate::proofs::Faultless::graph_has_no_fault), unfolding(crate::specs::Graph::lamp_graph, crate::specs::Graph::command_entries, crate::specs::Graph::switch_entries, cm_tables::specs::Order::table_fault))]
    fn make(alloc: Global) -> Result<Grammar, NoMemory> {
        let commands = Table::of(vec![in alloc;
            Entry::new("DIM", DIM, 7),
            Entry::new("LIST", LIST, LINE_END),
            Entry::new("NAME", NAME, 9),
            Entry::new("QUIT", QUIT, LINE_END),
            Entry::new("SET", SET, 3),
        ]?);
        let switches = Table::of(vec![in alloc; Entry::with_value("BY", 0, 6)]?);
        let tables = vec![in alloc; commands, switches]?;
        Ok(Grammar::of(nodes(alloc)?, tables))
    }
}

// At node 0 a line begins, with nothing or a command; at node 1, after the room of DIM, it ends, or a switch follows.
#[tactic(auto, unfolding(crate::specs::Graph::lamp_nodes))]
fn nodes(alloc: Global) -> Result<Vec<Node>, NoMemory>
    ensures { IfOk result (λ nodes. nodes.items ≡ lamp_nodes) }
{
    let command = Block::new(Function::Key(0), Role::Verb, LINE_END);
    let switch = Block::new(Function::Switch(1), Role::None, LINE_END);
    let mut nodes = vec![in alloc;
        Node::new(vec![in alloc; Block::confirm(LINE_END), command]?),
        Node::new(vec![in alloc; Block::confirm(LINE_END), switch]?),
    ]?;
    push_nodes(&mut nodes, blocks(alloc)?, alloc)?;
    Ok(nodes)
}

// Nodes 2 to 11, of one block each: the end of a line; SET; DIM; NAME.
#[tactic(auto, unfolding(crate::specs::Graph::blocks))]
fn blocks(alloc: Global) -> Result<Vec<Block>, NoMemory>
    ensures { IfOk result (λ items. items.items ≡ blocks) }
{
    Ok(vec![in alloc;
        Block::confirm(LINE_END),
        Block::guide("LAMP IN", 4),
        Block::new(Function::Hook(0), Role::What, 5),
        Block::guide("TO", 6),
        Block::new(Function::Number, Role::Value, LINE_END),
        Block::guide("LAMP IN", 8),
        Block::new(Function::Hook(0), Role::What, 1),
        Block::guide("LAMP IN", 10),
        Block::new(Function::Hook(0), Role::What, 11),
        Block::new(Function::Quoted, Role::Value, LINE_END),
    ]?)
}
