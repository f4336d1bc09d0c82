// The grammar of the EXEC.
ghost use Rattle.std.specs.Prelude.{◌≡◌, IfOk};
ghost use Rattle.ex_grammar.specs.Graph.{exec_graph};

use crate::nodes::nodes;
use crate::tables::tables;
use cm_blocks::Grammar;
use cm_io::NoMemory;
use std::alloc::Global;

/// The grammar of the EXEC: 57 nodes, at the numbers that the log gives, and the keyword tables of the commands, of
/// what INFORMATION tells about, of the subcommands of DIRECTORY and of BUILD, of the switches of PRINT, and of what
/// SET sets.
#[tactic(auto, using(crate::proofs::Faultless::graph_has_no_fault), unfolding(crate::specs::Graph::exec_graph))]
pub fn grammar(alloc: Global) -> Result<Grammar, NoMemory>
    ensures { IfOk result (λ grammar. grammar ≡ exec_graph) }
{
    Ok(Grammar::of(nodes(alloc)?, tables(alloc)?))
}
