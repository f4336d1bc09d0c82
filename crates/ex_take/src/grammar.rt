// The grammar of the EXEC, as the EXEC holds it.
use cm_blocks::Grammar;
use cm_io::NoMemory;
use cm_run::Known;
use ex_grammar::grammar;
use std::alloc::Global;

/// The grammar of the EXEC, as it holds it.
pub struct ExecGrammar;

impl Known for ExecGrammar {
    ghost use Rattle.ex_grammar.specs.Graph.{exec_graph};

    ghost graph = { exec_graph };

    fn make(alloc: Global) -> Result<Grammar, NoMemory> {
        grammar(alloc)
    }
}
