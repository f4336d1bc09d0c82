// The small words in which nodes are written, and the nodes that are named.
ghost use Rattle.std.specs.Prelude.{◌≡◌, ◌≤◌, IfOk, length};
ghost use Rattle.ex_grammar.specs.Words.{any_file, comma, confirm, directory, either, either_or, hook, in_file, keyword, new_directory, only, out_file, remark, rest_of_line, source_token, switch, token, user, value, wild, wild_all, wild_deleted, wild_from_source, wild_generations};

use cm_blocks::{Block, Function, Node, Role};
use cm_files::Flags;
use cm_io::NoMemory;
use cm_text::{NAME_LIMIT, Name};
use std::alloc::Global;

/// The node where a command begins.
pub const COMMANDS: u16 = 0;

/// The node where a subcommand of DIRECTORY begins.
pub const DIRECTORY_SUBCOMMANDS: u16 = 46;

/// The node where a subcommand of BUILD begins.
pub const BUILD_SUBCOMMANDS: u16 = 48;

// The node where only the end of the line may be.
pub(crate) const LINE_END: u16 = 5;

// The node where the switches of PRINT are.
pub(crate) const SWITCHES: u16 = 39;

// The end of the line.
pub(crate) fn confirm() -> Block
    ensures { result ≡ confirm }
{
    Block::new(Function::Confirm, Role::None, LINE_END)
}

// A keyword of this table.
pub(crate) fn keyword(table: u16, role: Role) -> Block
    ensures { result ≡ keyword table role }
{
    Block::new(Function::Key(table), role, LINE_END)
}

pub(crate) fn token(sign: &str, next: u16) -> Block
    requires { length sign.now ≤ NAME_LIMIT }
    ensures { result ≡ token sign.now next }
{
    Block::new(Function::Token(Name::new(sign)), Role::None, next)
}

// A sign that stands for what is read.
pub(crate) fn source_token(sign: &str, next: u16) -> Block
    requires { length sign.now ≤ NAME_LIMIT }
    ensures { result ≡ source_token sign.now next }
{
    Block::new(Function::Token(Name::new(sign)), Role::Source, next)
}

// A comma, after which subcommands follow.
pub(crate) fn comma() -> Block
    ensures { result ≡ comma }
{
    Block::new(Function::Comma, Role::Sub, LINE_END)
}

// A switch of this table.
pub(crate) fn switch(table: u16) -> Block
    ensures { result ≡ switch table }
{
    Block::new(Function::Switch(table), Role::Value, LINE_END)
}

// A value of this kind.
pub(crate) fn value(function: Function, next: u16) -> Block
    ensures { result ≡ value function next }
{
    Block::new(function, Role::Value, next)
}

// What the rule of this id takes.
pub(crate) fn hook(id: u8, next: u16) -> Block
    ensures { result ≡ hook id next }
{
    value(Function::Hook(id), next)
}

// A user that a command works on.
pub(crate) fn user() -> Block
    ensures { result ≡ user }
{
    Block::new(Function::User, Role::Files, LINE_END)
}

// A directory that is there.
pub(crate) fn directory() -> Block
    ensures { result ≡ directory }
{
    Block::new(Function::Directory, Role::Files, LINE_END)
}

// A directory that may be a new one.
pub(crate) fn new_directory(next: u16) -> Block
    ensures { result ≡ new_directory next }
{
    let block = Block::new(Function::Directory, Role::Files, next);
    Block {
        flags: Flags {
            new: true,
            ..block.flags
        },
        ..block
    }
}

// Wildcards may be in a file.
pub(crate) fn wild() -> Flags
    ensures { result ≡ wild }
{
    Flags {
        wild: true,
        ..Flags::default()
    }
}

// Wildcards, and what is not given is that of the source.
pub(crate) fn wild_from_source() -> Flags
    ensures { result ≡ wild_from_source }
{
    Flags {
        from_source: true,
        ..wild()
    }
}

// Wildcards, and all generations where none is given.
pub(crate) fn wild_generations() -> Flags
    ensures { result ≡ wild_generations }
{
    Flags {
        all_generations: true,
        ..wild()
    }
}

// The same of the files that are marked deleted.
pub(crate) fn wild_deleted() -> Flags
    ensures { result ≡ wild_deleted }
{
    Flags {
        deleted: true,
        ..wild_generations()
    }
}

// Wildcards, and all names, types and generations where none is given.
pub(crate) fn wild_all() -> Flags
    ensures { result ≡ wild_all }
{
    Flags {
        default_all: true,
        ..wild_generations()
    }
}

// Files that are read, in this way and for this.
pub(crate) fn in_file(flags: Flags, role: Role, next: u16) -> Block
    ensures { result ≡ in_file flags role next }
{
    Block {
        flags,
        ..Block::new(Function::InFile, role, next)
    }
}

// The file that is written.
pub(crate) fn out_file(flags: Flags, next: u16) -> Block
    ensures { result ≡ out_file flags next }
{
    Block {
        flags,
        ..Block::new(Function::OutFile, Role::Target, next)
    }
}

// Files that need not be there, read in this way and for this.
pub(crate) fn any_file(flags: Flags, role: Role, next: u16) -> Block
    ensures { result ≡ any_file flags role next }
{
    Block {
        flags,
        ..Block::new(Function::AnyFile, role, next)
    }
}

fn rest_of_line() -> Block
    ensures { result ≡ rest_of_line }
{
    Block::new(Function::Text, Role::None, LINE_END)
}

// A node of one block.
pub(crate) fn only(alloc: Global, block: Block) -> Result<Node, NoMemory>
    ensures { IfOk result (λ node. node ≡ only block) }
{
    Ok(Node::new(vec![in alloc; block]?))
}

// A node of two blocks, tried in this order.
pub(crate) fn either(alloc: Global, first: Block, second: Block) -> Result<Node, NoMemory>
    ensures { IfOk result (λ node. node ≡ either first second) }
{
    Ok(Node::new(vec![in alloc; first, second]?))
}

// A node of two blocks, for which this text is where the line ends.
pub(crate) fn either_or(
    alloc: Global,
    first: Block,
    second: Block,
    text: &str,
) -> Result<Node, NoMemory>
    requires { length text.now ≤ NAME_LIMIT }
    ensures { IfOk result (λ node. node ≡ either_or first second text.now) }
{
    let node = either(alloc, first, second)?;
    Ok(Node {
        default: Some(Name::new(text)),
        ..node
    })
}

// The node of a remark, where no comment begins.
pub(crate) fn remark(alloc: Global) -> Result<Node, NoMemory>
    ensures { IfOk result (λ node. node ≡ remark) }
{
    let node = only(alloc, rest_of_line())?;
    Ok(Node { raw: true, ..node })
}
