// Grammars that are fixed before a run.
ghost use Rattle.std.specs.Prelude.{◌≡◌, IfOk};

use cm_blocks::Grammar;
use cm_io::NoMemory;
use std::alloc::Global;
use std::marker::{Model, PhantomData};

/// A grammar that a program fixes before it runs, such as one that is written in its code.
pub trait Known {
    ghost use Rattle.std.specs.Prelude.{◌≡◌, IfOk};
    ghost use Rattle.cm_blocks.specs.Grammar.{Graph};

    /// The grammar.
    ghost graph: { Graph };

    /// Makes it. There is an error where memory runs out.
    fn make(alloc: Global) -> Result<Grammar, NoMemory>
        ensures { IfOk result (λ grammar. grammar ≡ graph) };
}

/// Such a grammar, once it is made: what a program holds to lend it. Each is like the other, so that nothing of it is
/// seen in the state of the program.
#[derive(Drop)]
pub struct Own<K: Known> {
    grammar: Grammar,
    known: PhantomData<K>,
}

impl<K: Known> Model for Own<K> {
    ghost use Rattle.std.specs.Prelude.{◌≡◌};

    ghost Value = { Unit {0} };

    ghost view = { λ own. tt };

    ghost invariant = { λ own. own.grammar ≡ K.graph };
}

impl<K: Known> Own<K> {
    /// Makes the grammar. There is an error where memory runs out.
    pub fn new(alloc: Global) -> Result<Own<K>, NoMemory>
        ensures { IfOk result (λ own. own ≡ tt) }
    {
        Ok(Own {
            grammar: K::make(alloc)?,
            known: PhantomData,
        })
    }

    /// The grammar.
    pub fn lend(&self) -> &Grammar
        ensures { result.now ≡ K.graph }
    {
        &self.grammar
    }
}
