// Defaults that their nodes do not take.
ghost use Rattle.std.specs.Prelude.{◌≡◌, ◌≤◌, ◌<◌, All, drop, length};
ghost use Rattle.std.specs.List.{list_all};
ghost use Rattle.cm_text.specs.declared.text.TheConstants.{TEXT_LIMIT};
ghost use Rattle.cm_fields.specs.declared.code.Code.TheVariants.{NotConfirmed};
ghost use Rattle.cm_files.specs.RowTrials.{passes_at};
ghost use Rattle.cm_blocks.specs.Chain.{walk};
ghost use Rattle.cm_blocks.specs.Default.{bad_default, bare, has_bad_default, is_plain, is_plain_block, is_takes, takes_default};
ghost use Rattle.cm_blocks.specs.Well.{IsWell, IsWellBlock};

use crate::chain::finished;
use crate::trial::try_function;
use crate::{Block, Function, Grammar, Node};
use cm_fields::{Try, skip};
use cm_files::OneDirectory;
use cm_hooks::NoRules;
use cm_text::Name;

// Whether neither names nor rules decide what a function takes.
fn is_plain(function: &Function) -> bool
    ensures { result ≡ is_plain function.now }
{
    match function {
        Function::User | Function::Directory => false,
        Function::InFile | Function::OutFile | Function::AnyFile => false,
        Function::Hook(_) => false,
        _ => true,
    }
}

fn is_plain_block(block: &Block) -> bool
    ensures { result ≡ is_plain_block block.now }
{
    is_plain(&block.function)
}

fn are_plain(blocks: &[Block]) -> bool
    ensures { result ≡ list_all is_plain_block blocks.now }
{
    blocks.iter().all(is_plain_block)
}

// Whether one of the blocks takes the text from a place on, where those before it refuse.
fn take(grammar: &Grammar, blocks: &[Block], text: &[u8], at: usize) -> bool
    requires well { All (IsWellBlock grammar.now) blocks.now }
    requires short { length text.now ≤ TEXT_LIMIT }
    requires place { at ≤ length text.now }
    ensures { result ≡ is_takes (walk (bare grammar.now) (drop at text.now) at 0 0 NotConfirmed blocks.now) }
{
    for block in blocks {
        match try_function(grammar, block, text, at, &OneDirectory::nothing(), &NoRules) {
            Try::Accept { .. } => return true,
            Try::Refuse { .. } => {}
            Try::More => return false,
        }
    }
    false
}

// Whether the blocks of a node take a text as its default, where there are no files and no rules.
fn takes_default(grammar: &Grammar, node: &Node, text: &Name) -> bool
    requires { IsWell grammar.now node.now }
    ensures { result ≡ takes_default (bare grammar.now) node.now text.now }
{
    let line = finished(text);
    let place = skip(node.raw, line.as_slice(), 0).unwrap_or(0);
    take(grammar, node.chain.as_slice(), line.as_slice(), place)
}

fn has_bad_default(grammar: &Grammar, node: &Node) -> bool
    requires { IsWell grammar.now node.now }
    ensures { result ≡ has_bad_default grammar.now node.now }
{
    match &node.default {
        Some(text) => are_plain(node.chain.as_slice()) && !takes_default(grammar, node, text),
        None => false,
    }
}

// Whether the node with this number has a bad default.
fn is_bad_at(grammar: &Grammar, number: u16) -> bool
    requires { number < length grammar.now.nodes }
    ensures { result ≡ passes_at (has_bad_default grammar.now) grammar.now.nodes number }
{
    has_bad_default(grammar, grammar.node(number))
}

#[tactic(auto, using(cm_files::proofs::Walks::first_walk), unfolding(crate::specs::Default::bad_default))]
fn first_bad(grammar: &Grammar) -> Option<u16>
    ensures { result ≡ bad_default grammar.now }
{
    for number in 0..grammar.nodes() {
        if is_bad_at(grammar, number) {
            return Some(number);
        }
    }
    None
}

impl Grammar {
    /// The number of the first node with a default that its blocks do not take, whatever names and rules there are: all
    /// of them are plain, which those are that read neither users, directories, files nor what a hook accepts. A line
    /// that relies on such a default is refused. A grammar that `new` made has none.
    pub fn bad_default(&self) -> Option<u16>
        // [default-fault]
        ensures { result ≡ bad_default self.now }
    {
        first_bad(self)
    }
}
