// The nodes of a grammar.
ghost use Rattle.std.specs.Prelude.{◌≡◌, ◌≤◌, ◌++◌, IfOk, length, map};
ghost use Rattle.cm_text.specs.declared.name.TheConstants.{NAME_LIMIT};
ghost use Rattle.cm_blocks.specs.Words.{only};

use crate::{Function, Role};
use cm_files::Flags;
use cm_text::Name;
use std::alloc::{AllocError, Global};
use std::marker::Model;

/// A function block: one way for a field to be read (COMND's function descriptor block).
#[derive(Debug, Drop)]
pub struct Block {
    /// What it reads.
    pub function: Function,
    /// How it reads files and directories.
    pub flags: Flags,
    /// What `?` says of it, in place of its function's own words.
    pub help: Option<Name>,
    /// What its field is for.
    pub role: Role,
    /// The node that follows its field; after a keyword or a switch the entry's node follows.
    pub next: u16,
    /// Whether a line has each entry of its table at most once, if it reads keywords or switches.
    pub once: bool,
}

impl Block {
    ghost use Rattle.cm_blocks.specs.Words.{block, confirm, guide, once};

    /// A block that reads this, for this, before the node that follows. It has no flags, and no help of its own.
    pub fn new(function: Function, role: Role, next: u16) -> Block
        ensures { result ≡ block function role next }
    {
        Block {
            function,
            flags: Flags {
                wild: false,
                all_generations: false,
                deleted: false,
                default_all: false,
                from_source: false,
                new: false,
            },
            help: None,
            role,
            next,
            once: false,
        }
    }

    /// The same block, of whose table a line has each entry at most once: where an earlier field of the line is the
    /// same entry, its field is refused with Repeated. Of a block that reads neither keywords nor switches it says
    /// nothing.
    pub fn once(self) -> Block
        ensures { result ≡ once self }
    {
        Block { once: true, ..self }
    }

    /// The end of a line. The node that follows is never asked.
    pub fn confirm(next: u16) -> Block
        ensures { result ≡ confirm next }
    {
        Block::new(Function::Confirm, Role::None, next)
    }

    /// A guide word, as `(FROM)`, before the node that follows.
    pub fn guide(word: &str, next: u16) -> Block
        requires { length word.now ≤ NAME_LIMIT }
        ensures { result ≡ guide word.now next }
    {
        Block::new(Function::Noise(Name::new(word)), Role::None, next)
    }
}

/// Blocks in the order in which they are tried. Contracts see the list of them.
#[derive(Debug, Drop)]
pub struct Blocks {
    items: Vec<Block>,
}

impl Model for Blocks {
    ghost use Rattle.std.specs.Prelude.{List};
    ghost use Rattle.cm_blocks.specs.declared.node.Block.{Block};

    ghost Value = { List Block };

    ghost view = { λ blocks. blocks.items.items };
}

impl Blocks {
    /// These blocks, in this order.
    pub fn new(items: Vec<Block>) -> Blocks
        ensures { result ≡ items.items }
    {
        Blocks { items }
    }

    /// The blocks as a slice.
    pub fn as_slice(&self) -> &[Block]
        ensures { result.now ≡ self.now }
    {
        &self.items
    }

    /// Gives the blocks back.
    pub fn into_vec(self) -> Vec<Block>
        ensures { result.items ≡ self }
    {
        self.items
    }
}

/// A place in a line: the blocks that may read the next field there, and how it is read.
#[derive(Debug, Drop)]
pub struct Node {
    /// The blocks, tried in order; the first that does not refuse decides.
    pub chain: Blocks,
    /// What stands for the field where the line ends before it.
    pub default: Option<Name>,
    /// Whether `!` and `;` are plain bytes here, and begin no comment.
    pub raw: bool,
    /// What a line that ends before the field is missing, where its refusal is to say so: as `address` of `?Missing
    /// address`.
    pub awaits: Option<Name>,
}

impl Node {
    ghost use Rattle.cm_blocks.specs.Words.{node};

    /// The node with this chain. It has no default, comments begin there, and it does not say what it awaits.
    pub fn new(chain: Vec<Block>) -> Node
        ensures { result ≡ node chain.items }
    {
        Node {
            chain: Blocks::new(chain),
            default: None,
            raw: false,
            awaits: None,
        }
    }
}

/// Puts after some nodes, for each of these blocks, a node of it alone.
pub fn push_nodes(
    nodes: &mut Vec<Node>,
    blocks: Vec<Block>,
    alloc: Global,
) -> Result<(), AllocError>
    ensures { IfOk result (λ _. nodes.new.items ≡ nodes.old.items ++ map only blocks.items) }
{
    for block in blocks {
        nodes.push(Node::new(vec![in alloc; block]?))?;
    }
    Ok(())
}
