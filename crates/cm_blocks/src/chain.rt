// The chain of a node, tried on a text.
ghost use Rattle.std.specs.Prelude.{◌≡◌, ◌+◌, ◌≤◌, ◌<◌, ◌&&◌, true, All, IfSome, drop, if◌then◌else◌, is_some, length, unwrap_or};
ghost use Rattle.cm_text.specs.Text.{finished};
ghost use Rattle.cm_fields.specs.Code.{is_own};
ghost use Rattle.cm_fields.specs.Skip.{skip};
ghost use Rattle.cm_fields.specs.declared.code.Code.TheVariants.{NotConfirmed};
ghost use Rattle.cm_blocks.specs.Chain.{ChainLeads, IsNear, answered, chain_at, is_line_end, later_code, spent, walk};
ghost use Rattle.cm_blocks.specs.Setting.{setting};
ghost use Rattle.cm_blocks.specs.Well.{IsWellBlock};

use crate::fault::BLOCK_LIMIT;
use crate::trial::{looked_of, next_of, try_function};
use crate::{Block, Chain, Fault, Field, Grammar, Node, Open, Role, Steps};
use arrayvec::ArrayVec;
use cm_fields::{Code, Try, Value, skip};
use cm_files::Names;
use cm_hooks::Rules;
use cm_text::{NAME_LIMIT, Name, TEXT_LIMIT};
use std::sync::ledger::Ledger;

// The most bytes of a default, finished as a line.
pub(crate) const DEFAULT_LIMIT: usize = NAME_LIMIT + 1;

// What the blocks of a chain answer in order.
#[derive(Clone, Copy)]
pub enum Walk {
    // This block accepts.
    Takes {
        block: u8,
        role: Role,
        next: u16,
        value: Value,
        looked: u16,
        end: u16,
    },
    // This block wants more bytes.
    Wants {
        block: u8,
    },
    // All refuse, the last one so, or with the last reason of the program's own.
    Fails {
        code: Code,
    },
}

// Whether a code is a reason of the program's own.
fn is_own(code: &Code) -> bool
    ensures { result ≡ is_own code.now }
{
    matches!(code, Code::Own(_))
}

// The later of two codes, unless the earlier alone is a reason of the program's own.
fn later_code(before: Code, code: Code) -> Code
    ensures { result ≡ later_code before code }
{
    let is_kept = is_own(&before) && !is_own(&code);
    if is_kept { before } else { code }
}

// Tries the blocks in order, up to the first that does not refuse, and counts each.
fn walk_blocks<N: Names, R: Rules, L: Ledger>(
    grammar: &Grammar,
    blocks: &[Block],
    text: &[u8],
    at: usize,
    names: &N,
    rules: &R,
    steps: &mut Steps<L>,
) -> Walk
    requires few { length blocks.now ≤ BLOCK_LIMIT }
    requires well { All (IsWellBlock grammar.now) blocks.now }
    requires short { length text.now ≤ TEXT_LIMIT }
    requires place { at ≤ length text.now }
    ensures value { result ≡ walk (setting grammar.now (N.catalogue names.now) (R.meanings rules.now))
        (drop at text.now) at 0 0 NotConfirmed blocks.now }
    ensures steps { steps.new ≡ steps.old + spent (setting grammar.now (N.catalogue names.now) (R.meanings rules.now))
        (drop at text.now) at blocks.now }
    ensures near { IsNear result }
{
    let size = text.len() - at;
    let mut looked = 0;
    let mut code = Code::NotConfirmed;
    for (number, block) in blocks.iter().enumerate() {
        let answer = try_function(grammar, block, text, at, names, rules);
        let seen = looked_of(size, answer);
        steps.add(seen as u64 + 1);
        looked = seen.max(looked);
        match &answer {
            Try::Accept { value, end, .. } => {
                return Walk::Takes {
                    block: number as u8,
                    role: block.role,
                    next: next_of(grammar, block, *value),
                    value: *value,
                    looked: looked as u16,
                    end: *end,
                };
            }
            Try::Refuse { code: refusal, .. } => code = later_code(code, *refusal),
            Try::More => {
                return Walk::Wants {
                    block: number as u8,
                };
            }
        }
    }
    Walk::Fails { code }
}

// The place after a field: that of a default has no bytes.
fn end_of(on_default: bool, start: u16, end: u16) -> u16
    ensures { result ≡ (if on_default then start else end) }
{
    if on_default { start } else { end }
}

// How many bytes decide a field: of a default those before it and the end of the line.
fn need_of(on_default: bool, start: u16, looked: u16) -> u16
    requires looked { looked ≤ TEXT_LIMIT }
    requires place { start ≤ TEXT_LIMIT }
    ensures { result ≡ (if on_default then start + 1 else start + looked) }
{
    if on_default {
        start + 1
    } else {
        start + looked
    }
}

// What a chain answers whose blocks answer so.
fn answered(on_default: bool, node: u16, start: u16, walk: &Walk) -> Chain
    requires near { IsNear walk.now }
    requires place { start ≤ TEXT_LIMIT }
    ensures { result ≡ answered on_default node start walk.now }
{
    match walk {
        Walk::Takes {
            value: Value::Confirm,
            end,
            ..
        } => Chain::Done(end_of(on_default, start, *end)),
        Walk::Takes {
            block,
            role,
            next,
            value,
            looked,
            end,
        } => Chain::Field(Field {
            node,
            block: *block,
            value: *value,
            start,
            end: end_of(on_default, start, *end),
            need: need_of(on_default, start, *looked),
            defaulted: on_default,
            role: *role,
            next: *next,
        }),
        Walk::Wants { block } => Chain::Open(Open {
            node,
            block: Some(*block),
            at: start,
        }),
        Walk::Fails { code } => Chain::Fault(Fault {
            code: *code,
            node,
            at: start,
        }),
    }
}

// Whether the blocks of a node are tried on its default: it has one, and the line ends here.
fn is_defaulted(node: &Node, text: &[u8], start: usize) -> bool
    requires { start ≤ length text.now }
    ensures { result ≡ (is_some node.now.default && is_line_end (drop start text.now)) }
{
    node.default.is_some() && text.get(start) == Some(&b'\r')
}

// The default of a node, finished as a line, where the blocks are tried on it.
fn default_line(node: &Node, on_default: bool) -> ArrayVec<u8, DEFAULT_LIMIT>
    ensures { on_default ≡ true → IfSome node.now.default (λ text. result.items ≡ finished text) }
{
    if !on_default {
        return ArrayVec::new();
    }
    match &node.default {
        Some(text) => finished(text),
        None => ArrayVec::new(),
    }
}

// The default of a node, finished as a line.
pub(crate) fn finished(text: &Name) -> ArrayVec<u8, DEFAULT_LIMIT>
    ensures { result.items ≡ finished text.now }
{
    let mut line = ArrayVec::new();
    let _ = line.try_extend_from_slice(text.as_bytes());
    line.push(b'\r');
    line
}

// What the blocks of a node are tried on, and from which place: the text, or past its blanks and comments the line of
// the default.
fn tried_on<'a>(
    node: &Node,
    on_default: bool,
    line: &'a [u8],
    text: &'a [u8],
    start: usize,
) -> (&'a [u8], usize)
    requires line { length line.now ≤ TEXT_LIMIT }
    requires short { length text.now ≤ TEXT_LIMIT }
    requires place { start ≤ length text.now }
    ensures text { result.0.now ≡ (if on_default then line.now else text.now) }
    ensures place { result.1 ≡ (if on_default then unwrap_or (skip node.now.raw line.now 0) 0 else start) }
    ensures short { length result.0.now ≤ TEXT_LIMIT }
    ensures within { result.1 ≤ length result.0.now }
{
    if on_default {
        return (line, skip(node.raw, line, 0).unwrap_or(0));
    }
    (text, start)
}

/// What the chain of a node makes of a text from a place on (COMND).
///
/// Blanks and comments are skipped; in a comment that is not ended the answer is Open with no block. Where
/// the line ends there and the node has a default, the blocks are tried on that, and the field is at the
/// place with no bytes. The first block that does not refuse decides: its field, Done for the end of the
/// line, Open where it wants more. Where all refuse the answer is Fault with the code of the last, but with
/// the last reason of the program's own (`Code::Own`) where a block gave one. The counter rises by the bytes
/// that each block looked at, and one for each.
#[tactic(auto, using(crate::proofs::Walks::tries_lead), unfolding(crate::specs::Chain::chain_at))]
pub fn try_chain<N: Names, R: Rules, L: Ledger>(
    grammar: &Grammar,
    node: u16,
    text: &[u8],
    at: usize,
    names: &N,
    rules: &R,
    steps: &mut Steps<L>,
) -> Chain
    requires node { node < length grammar.now.nodes }
    requires short { length text.now ≤ TEXT_LIMIT }
    requires place { at ≤ length text.now }
    // [default]
    ensures value { result
        ≡ (chain_at (setting grammar.now (N.catalogue names.now) (R.meanings rules.now)) node text.now at).chain }
    ensures steps { steps.new ≡ steps.old
        + (chain_at (setting grammar.now (N.catalogue names.now) (R.meanings rules.now)) node text.now at).spent }
    ensures leads { ChainLeads (length grammar.now.nodes) at (length text.now) result }
{
    let found = grammar.node(node);
    let start = match skip(found.raw, text, at) {
        Some(start) => start,
        None => {
            return Chain::Open(Open {
                node,
                block: None,
                at: at as u16,
            });
        }
    };
    let on_default = is_defaulted(found, text, start);
    let line = default_line(found, on_default);
    let (tried, place) = tried_on(found, on_default, line.as_slice(), text, start);
    let walk = walk_blocks(
        grammar,
        found.chain.as_slice(),
        tried,
        place,
        names,
        rules,
        steps,
    );
    answered(on_default, node, start as u16, &walk)
}
