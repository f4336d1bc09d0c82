// The blocks that read a field.
ghost use Rattle.std.specs.Prelude.{◌≡◌, ◌++◌, IfOk, map};
ghost use Rattle.cm_graph.specs.Fields.{field_block, function_of, help_of, hook_of, numbers_of};

use cm_blocks::{Block, Function, Role};
use cm_fields::{Numbers, Radix};
use cm_synopsis::Kind;
use cm_text::Name;
use std::alloc::AllocError;

// The function that reads numbers of a range.
fn numbers_of(range: Option<(u32, u32)>) -> Function
    ensures { result ≡ numbers_of range }
{
    match range {
        None => Function::Number,
        Some((low, high)) => Function::Numeral(Numbers {
            radix: Radix::Decimal,
            signed: false,
            least: i64::from(low),
            most: i64::from(high),
        }),
    }
}

// The hook of a list.
fn hook_of(list: usize) -> u8
    ensures { result ≡ hook_of list }
{
    (5 + list.min(250)) as u8
}

// The function that reads a kind of field.
fn function_of(range: Option<(u32, u32)>, kind: &Kind) -> Function
    ensures { result ≡ function_of range kind.now }
{
    match kind {
        Kind::Number => numbers_of(range),
        Kind::Word => Function::Word,
        Kind::Quoted => Function::LongQuoted,
        Kind::Date => Function::Date,
        Kind::Rest => Function::Text,
        Kind::Ipv4 => Function::Hook(0),
        Kind::Ipv4Prefix => Function::Hook(1),
        Kind::Ipv6 => Function::Hook(2),
        Kind::Ipv6Prefix => Function::Hook(3),
        Kind::Mac => Function::Hook(4),
        Kind::Listed(list) => Function::Hook(hook_of(*list)),
        Kind::Class(set) => Function::Run(*set),
    }
}

// The help of a kind of a field.
fn help_of(name: &Name, kind: &Kind) -> Option<Name>
    ensures { result ≡ help_of name.now kind.now }
{
    match kind {
        Kind::Word | Kind::Rest | Kind::Class(_) | Kind::Listed(_) => Some(Name::new(
            name.as_str(),
        )),
        _ => None,
    }
}

// A block with this help.
fn with_help(block: Block, help: Option<Name>) -> Block
    ensures { result ≡ record block { help = help } }
{
    Block { help, ..block }
}

// The block of a kind of a field.
fn field_block(name: &Name, range: Option<(u32, u32)>, next: u16, kind: &Kind) -> Block
    ensures { result ≡ field_block name.now range next kind.now }
{
    let block = Block::new(function_of(range, kind), Role::None, next);
    with_help(block, help_of(name, kind))
}

// Puts a block for each kind of a field behind others.
pub(crate) fn push_fields(
    blocks: &mut Vec<Block>,
    name: &Name,
    range: Option<(u32, u32)>,
    next: u16,
    kinds: &[Kind],
) -> Result<(), AllocError>
    ensures { IfOk result (λ _. blocks.new.items
        ≡ blocks.old.items ++ map (field_block name.now range next) kinds.now) }
{
    for kind in kinds {
        blocks.push(field_block(name, range, next, kind))?;
    }
    Ok(())
}
