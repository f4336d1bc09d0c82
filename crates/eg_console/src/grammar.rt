// The grammar of the console.
ghost use Rattle.std.specs.Prelude.{◌≡◌, ◌≤◌, IfOk, length};
ghost use Rattle.cm_text.specs.declared.name.TheConstants.{NAME_LIMIT};
ghost use Rattle.eg_console.specs.Graph.{awaiting, console_nodes, console_tables};

use cm_blocks::{Block, Function, Grammar, Node, Role};
use cm_fields::{Numbers, Radix};
use cm_io::NoMemory;
use cm_run::Known;
use cm_tables::{Entry, Table};
use cm_text::Name;
use std::alloc::Global;

/// The grammar: `interface NAME set` and options, `interface NAME show`, `show`, `quit`, and an empty line. The
/// options are `address ADDRESS/LENGTH`, `mtu NUMBER` and `speed SPEED`, at least one, in any order, each once.
pub struct ConsoleGrammar;

impl Known for ConsoleGrammar {
    ghost use Rattle.eg_console.specs.Graph.{console_graph};

    ghost graph = { console_graph };

    #[tactic(auto, using(crate::proofs::Faultless::graph_has_no_fault), unfolding(crate::specs::Graph::console_graph))]
    fn make(alloc: Global) -> Result<Grammar, NoMemory> {
        let tables = tables(alloc)?;
        Ok(Grammar::of(nodes(alloc)?, tables))
    }
}

// The commands; what is done with an interface; the options; the speeds.
#[tactic(auto, unfolding(crate::specs::Graph::console_tables, cm_tables::specs::Order::table_fault))]
fn tables(alloc: Global) -> Result<Vec<Table>, NoMemory>
    ensures { IfOk result (λ tables. tables.items ≡ console_tables) }
{
    let commands = vec![in alloc;
        Entry::new("interface", 1, 2),
        Entry::new("quit", 2, 1),
        Entry::new("show", 3, 1),
    ]?;
    let verbs = vec![in alloc; Entry::new("set", 4, 4), Entry::new("show", 3, 1)]?;
    let options = vec![in alloc;
        Entry::new("address", 0, 6),
        Entry::new("mtu", 0, 7),
        Entry::new("speed", 0, 8),
    ]?;
    let speeds = vec![in alloc;
        Entry::new("10", 10, 5),
        Entry::new("100", 100, 5),
        Entry::new("1000", 1000, 5),
        Entry::new("auto", 0, 5),
    ]?;
    Ok(vec![in alloc;
        Table::of(commands),
        Table::of(verbs),
        Table::of(options),
        Table::of(speeds),
    ]?)
}

// A line begins at node 0 and ends at node 1; nodes 2 and 3 read an interface and what to do with it, nodes 4 and 5 an
// option, nodes 6 to 8 what it is set to.
#[tactic(auto, unfolding(crate::specs::Graph::console_nodes))]
fn nodes(alloc: Global) -> Result<Vec<Node>, NoMemory>
    ensures { IfOk result (λ nodes. nodes.items ≡ console_nodes) }
{
    let mtu = Numbers {
        radix: Radix::Decimal,
        signed: false,
        least: 68,
        most: 9000,
    };
    let command = Block::new(Function::Key(0), Role::Verb, 1);
    let interface = Block::new(Function::Hook(0), Role::What, 3);
    let verb = Block::new(Function::Key(1), Role::Sub, 1);
    let first = Block::new(Function::Key(2), Role::None, 5).once();
    let more = Block::new(Function::Key(2), Role::None, 5).once();
    let address = Block::new(Function::Hook(1), Role::Own(0), 5);
    let size = Block::new(Function::Numeral(mtu), Role::Own(1), 5);
    let speed = Block::new(Function::Key(3), Role::Own(2), 5);
    Ok(vec![in alloc;
        Node::new(vec![in alloc; Block::confirm(1), command]?),
        Node::new(vec![in alloc; Block::confirm(1)]?),
        awaiting("interface", interface, alloc)?,
        awaiting("set or show", verb, alloc)?,
        awaiting("option", first, alloc)?,
        Node::new(vec![in alloc; Block::confirm(1), more]?),
        awaiting("address", address, alloc)?,
        awaiting("mtu", size, alloc)?,
        awaiting("speed", speed, alloc)?,
    ]?)
}

// A node of one block, which says what a line is missing that ends before it.
fn awaiting(word: &str, block: Block, alloc: Global) -> Result<Node, NoMemory>
    requires { length word.now ≤ NAME_LIMIT }
    ensures { IfOk result (λ node. node ≡ awaiting word.now block) }
{
    let mut node = Node::new(vec![in alloc; block]?);
    node.awaits = Some(Name::new(word));
    Ok(node)
}
