// The nodes of the EXEC's grammar, by the numbers that the log gives.
// A function for a group of the grammar gives a Vec<Block> of literals, in which only the last call may fail, and
// push_nodes makes the nodes. vec![in alloc; node(alloc, ..)?, ..] with seven such calls takes minutes.
ghost use Rattle.std.specs.Prelude.{◌≡◌, ◌++◌, IfOk};
ghost use Rattle.ex_grammar.specs.Graph.{append_blocks, build_blocks, define_blocks, delete_blocks, directory_nodes, exec_nodes, first_nodes, last_nodes, listing_nodes, print_blocks, retention_nodes, set_blocks, source_nodes, switch_blocks, target_blocks, type_blocks};

use crate::node::{
    LINE_END, SWITCHES, any_file, comma, confirm, directory, either, either_or, hook, in_file,
    keyword, new_directory, only, out_file, remark, source_token, switch, token, user, value, wild,
    wild_all, wild_deleted, wild_from_source, wild_generations,
};
use crate::tables::{
    BUILD_TABLE, COMMAND_TABLE, DIRECTORY_TABLE, FILE_TABLE, SET_TABLE, SWITCH_TABLE, TOPIC_TABLE,
};
use cm_blocks::{Block, Function, Node, Role, push_nodes};
use cm_files::Flags;
use cm_io::NoMemory;
use std::alloc::Global;

#[tactic(auto, unfolding(crate::specs::Graph::exec_nodes))]
pub(crate) fn nodes(alloc: Global) -> Result<Vec<Node>, NoMemory>
    ensures { IfOk result (λ nodes. nodes.items ≡ exec_nodes) }
{
    let mut nodes = first_nodes(alloc)?;
    push_nodes(&mut nodes, type_blocks(alloc)?, alloc)?;
    push_all(&mut nodes, listing_nodes(alloc)?)?;
    push_nodes(&mut nodes, define_blocks(alloc)?, alloc)?;
    nodes.push(either(alloc, confirm(), directory())?)?;
    push_nodes(&mut nodes, build_blocks(alloc)?, alloc)?;
    nodes.push(either(alloc, confirm(), directory())?)?;
    push_all(&mut nodes, last_nodes(alloc)?)?;
    Ok(nodes)
}

// Nodes 37 to 56: PRINT, the text of a remark, the subcommands, and SET.
#[tactic(auto, unfolding(crate::specs::Graph::last_nodes))]
fn last_nodes(alloc: Global) -> Result<Vec<Node>, NoMemory>
    ensures { IfOk result (λ nodes. nodes.items ≡ last_nodes) }
{
    let mut nodes = Vec::new(alloc);
    push_nodes(&mut nodes, print_blocks(alloc)?, alloc)?;
    nodes.push(either(alloc, switch(SWITCH_TABLE), confirm())?)?;
    push_nodes(&mut nodes, switch_blocks(alloc)?, alloc)?;
    nodes.push(remark(alloc)?)?;
    push_all(&mut nodes, directory_nodes(alloc)?)?;
    push_all(&mut nodes, retention_nodes(alloc)?)?;
    push_nodes(&mut nodes, set_blocks(alloc)?, alloc)?;
    Ok(nodes)
}

// Nodes 0 to 18: up to the directory to connect to.
#[tactic(auto, unfolding(crate::specs::Graph::first_nodes))]
fn first_nodes(alloc: Global) -> Result<Vec<Node>, NoMemory>
    ensures { IfOk result (λ nodes. nodes.items ≡ first_nodes) }
{
    let mut nodes = source_nodes(alloc)?;
    push_nodes(&mut nodes, target_blocks(alloc)?, alloc)?;
    push_nodes(&mut nodes, append_blocks(alloc)?, alloc)?;
    push_nodes(&mut nodes, delete_blocks(alloc)?, alloc)?;
    nodes.push(either_or(alloc, user(), directory(), "<OPERATOR>")?)?;
    Ok(nodes)
}

// Nodes 0 to 2: where a command begins, and what COPY reads.
#[tactic(auto, unfolding(crate::specs::Graph::source_nodes))]
fn source_nodes(alloc: Global) -> Result<Vec<Node>, NoMemory>
    ensures { IfOk result (λ nodes. nodes.items ≡ source_nodes) }
{
    let terminal = source_token("TTY:", 3);
    let file = in_file(wild(), Role::Source, 3);
    let mut nodes = Vec::new(alloc);
    nodes.push(either(alloc, confirm(), keyword(COMMAND_TABLE, Role::Verb))?)?;
    nodes.push(only(alloc, Block::guide("FROM", 2))?)?;
    nodes.push(either(alloc, terminal, file)?)?;
    Ok(nodes)
}

// Puts nodes after others.
fn push_all(nodes: &mut Vec<Node>, more: Vec<Node>) -> Result<(), NoMemory>
    ensures { IfOk result (λ _. nodes.new.items ≡ nodes.old.items ++ more.items) }
{
    for node in more {
        nodes.push(node)?;
    }
    Ok(())
}

// 3 to 5: what COPY writes, and the end of a line.
#[tactic(auto, unfolding(crate::specs::Graph::target_blocks))]
fn target_blocks(alloc: Global) -> Result<Vec<Block>, NoMemory>
    ensures { IfOk result (λ blocks. blocks.items ≡ target_blocks) }
{
    Ok(vec![in alloc;
        Block::guide("TO", 4),
        out_file(wild_from_source(), LINE_END),
        confirm(),
    ]?)
}

// 6 to 12: APPEND and RENAME.
#[tactic(auto, unfolding(crate::specs::Graph::append_blocks))]
fn append_blocks(alloc: Global) -> Result<Vec<Block>, NoMemory>
    ensures { IfOk result (λ blocks. blocks.items ≡ append_blocks) }
{
    Ok(vec![in alloc;
        Block::guide("FROM", 7),
        in_file(wild(), Role::Source, 8),
        Block::guide("TO", 9),
        any_file(Flags::default(), Role::Target, LINE_END),
        Block::guide("EXISTING FILE", 11),
        in_file(wild(), Role::Source, 12),
        Block::guide("TO", 4),
    ]?)
}

// 13 to 17: DELETE, UNDELETE, and the guide word of CONNECT.
#[tactic(auto, unfolding(crate::specs::Graph::delete_blocks))]
fn delete_blocks(alloc: Global) -> Result<Vec<Block>, NoMemory>
    ensures { IfOk result (λ blocks. blocks.items ≡ delete_blocks) }
{
    Ok(vec![in alloc;
        Block::guide("FILES", 14),
        in_file(wild_generations(), Role::Files, LINE_END),
        Block::guide("FILES", 16),
        in_file(wild_deleted(), Role::Files, LINE_END),
        Block::guide("TO DIRECTORY", 18),
    ]?)
}

// 19 to 23: TYPE, TAKE, and the guide word of DIRECTORY.
#[tactic(auto, unfolding(crate::specs::Graph::type_blocks))]
fn type_blocks(alloc: Global) -> Result<Vec<Block>, NoMemory>
    ensures { IfOk result (λ blocks. blocks.items ≡ type_blocks) }
{
    Ok(vec![in alloc;
        Block::guide("FILES", 20),
        in_file(wild(), Role::Files, LINE_END),
        Block::guide("COMMANDS FROM", 22),
        in_file(Flags::default(), Role::Files, LINE_END),
        Block::guide("OF FILES", 24),
    ]?)
}

// 24 and 25: the files to list, and where DIRECTORY and BUILD end.
#[tactic(auto, unfolding(crate::specs::Graph::listing_nodes))]
fn listing_nodes(alloc: Global) -> Result<Vec<Node>, NoMemory>
    ensures { IfOk result (λ nodes. nodes.items ≡ listing_nodes) }
{
    let files = any_file(wild_all(), Role::Files, 25);
    let mut nodes = Vec::new(alloc);
    nodes.push(either_or(alloc, comma(), files, "*.*.*")?)?;
    nodes.push(either(alloc, comma(), confirm())?)?;
    Ok(nodes)
}

// 26 to 31: INFORMATION, and the logical name that DEFINE is for.
#[tactic(auto, unfolding(crate::specs::Graph::define_blocks))]
fn define_blocks(alloc: Global) -> Result<Vec<Block>, NoMemory>
    ensures { IfOk result (λ blocks. blocks.items ≡ define_blocks) }
{
    Ok(vec![in alloc;
        Block::guide("ABOUT", 27),
        keyword(TOPIC_TABLE, Role::What),
        Block::guide("LOGICAL NAME", 29),
        hook(0, 30),
        token(":", 31),
        Block::guide("AS", 32),
    ]?)
}

// 33 to 35: BUILD, and the guide word of EXPUNGE.
#[tactic(auto, unfolding(crate::specs::Graph::build_blocks))]
fn build_blocks(alloc: Global) -> Result<Vec<Block>, NoMemory>
    ensures { IfOk result (λ blocks. blocks.items ≡ build_blocks) }
{
    Ok(vec![in alloc;
        Block::guide("DIRECTORY", 34),
        new_directory(25),
        Block::guide("DELETED FILES", 36),
    ]?)
}

// 37 and 38: PRINT.
#[tactic(auto, unfolding(crate::specs::Graph::print_blocks))]
fn print_blocks(alloc: Global) -> Result<Vec<Block>, NoMemory>
    ensures { IfOk result (λ blocks. blocks.items ≡ print_blocks) }
{
    Ok(vec![in alloc;
        Block::guide("FILES", 38),
        in_file(wild(), Role::Files, SWITCHES),
    ]?)
}

// 40 to 44: the values of its switches, by their codes.
#[tactic(auto, unfolding(crate::specs::Graph::switch_blocks))]
fn switch_blocks(alloc: Global) -> Result<Vec<Block>, NoMemory>
    ensures { IfOk result (λ blocks. blocks.items ≡ switch_blocks) }
{
    Ok(vec![in alloc;
        value(Function::Date, SWITCHES),
        value(Function::Number, SWITCHES),
        hook(1, SWITCHES),
        value(Function::Word, SWITCHES),
        value(Function::Quoted, SWITCHES),
    ]?)
}

// 46 and 47: the subcommands of DIRECTORY, and their day.
#[tactic(auto, unfolding(crate::specs::Graph::directory_nodes))]
fn directory_nodes(alloc: Global) -> Result<Vec<Node>, NoMemory>
    ensures { IfOk result (λ nodes. nodes.items ≡ directory_nodes) }
{
    let mut nodes = Vec::new(alloc);
    nodes.push(either(alloc, confirm(), keyword(DIRECTORY_TABLE, Role::Verb))?)?;
    nodes.push(only(alloc, value(Function::Date, LINE_END))?)?;
    Ok(nodes)
}

// 48 to 50: the subcommand of BUILD, and its number.
#[tactic(auto, unfolding(crate::specs::Graph::retention_nodes))]
fn retention_nodes(alloc: Global) -> Result<Vec<Node>, NoMemory>
    ensures { IfOk result (λ nodes. nodes.items ≡ retention_nodes) }
{
    let mut nodes = Vec::new(alloc);
    nodes.push(either(alloc, confirm(), keyword(BUILD_TABLE, Role::Verb))?)?;
    nodes.push(only(alloc, Block::guide("TO KEEP", 50))?)?;
    nodes.push(only(alloc, hook(2, LINE_END))?)?;
    Ok(nodes)
}

// 51 to 56: SET, what it sets of files, the files, and their number.
#[tactic(auto, unfolding(crate::specs::Graph::set_blocks))]
fn set_blocks(alloc: Global) -> Result<Vec<Block>, NoMemory>
    ensures { IfOk result (λ blocks. blocks.items ≡ set_blocks) }
{
    Ok(vec![in alloc;
        keyword(SET_TABLE, Role::None),
        keyword(FILE_TABLE, Role::None),
        Block::guide("OF FILES", 54),
        in_file(wild_generations(), Role::Files, 55),
        Block::guide("TO", 56),
        hook(2, LINE_END),
    ]?)
}
