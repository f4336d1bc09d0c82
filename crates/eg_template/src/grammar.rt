// The grammar.
ghost use Rattle.std.specs.Prelude.{◌≡◌, IfOk};
ghost use Rattle.eg_template.specs.Graph.{command_entries, graph_nodes};

use cm_blocks::{Block, Function, Grammar, Node, Role};
use cm_io::NoMemory;
use cm_run::Known;
use cm_tables::{Entry, Table};
use std::alloc::Global;

// The codes of the commands.
pub(crate) const ADD: u16 = 1;

pub(crate) const QUIT: u16 = 2;

// The node where a line begins, and that where it ends.
pub(crate) const COMMANDS: u16 = 0;

const LINE_END: u16 = 1;

/// The grammar: `ADD (NUMBER) number`, `QUIT`, and an empty line.
pub struct SumGrammar;

impl Known for SumGrammar {
    ghost use Rattle.eg_template.specs.Graph.{graph};

    ghost graph = { graph };

    #[tactic(auto, using(crate::proofs::Faultless::graph_has_no_fault), unfolding(crate::specs::Graph::graph))]
    fn make(alloc: Global) -> Result<Grammar, NoMemory> {
        let tables = vec![in alloc; commands(alloc)?]?;
        Ok(Grammar::of(nodes(alloc)?, tables))
    }
}

// The commands, each with the node after it.
#[tactic(auto, unfolding(crate::specs::Graph::command_entries, cm_tables::specs::Order::table_fault))]
fn commands(alloc: Global) -> Result<Table, NoMemory>
    ensures { IfOk result (λ table. table ≡ command_entries) }
{
    Ok(Table::of(vec![in alloc;
        Entry::new("ADD", ADD, 2),
        Entry::new("QUIT", QUIT, LINE_END),
    ]?))
}

// At node 0 a line begins, with nothing or a command; at node 1 it ends; nodes 2 and 3 are those of ADD.
#[tactic(auto, unfolding(crate::specs::Graph::graph_nodes))]
fn nodes(alloc: Global) -> Result<Vec<Node>, NoMemory>
    ensures { IfOk result (λ nodes. nodes.items ≡ graph_nodes) }
{
    let command = Block::new(Function::Key(0), Role::Verb, LINE_END);
    let number = Block::new(Function::Number, Role::Value, LINE_END);
    Ok(vec![in alloc;
        Node::new(vec![in alloc; Block::confirm(LINE_END), command]?),
        Node::new(vec![in alloc; Block::confirm(LINE_END)]?),
        Node::new(vec![in alloc; Block::guide("NUMBER", 3)]?),
        Node::new(vec![in alloc; number]?),
    ]?)
}
