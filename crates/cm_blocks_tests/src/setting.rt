// What the chains of the tests are tried under: rules, and a counter.
ghost use Rattle.std.specs.Prelude.{◌≡◌, ◌<◌, ◌==◌, codes, if◌then◌else◌};

use crate::cases::{compare, debug_text, numbered, place_of, sides};
use crate::sample::Sample;
use cm_blocks::{Grammar, Steps, try_chain};
use cm_fields::Reason;
use cm_hooks::{Answer, Rules, Tail};
use cm_text::{Name, is_name};
use std::alloc::Global;
use std::marker::Brand;
use std::sync::ledger::{Blank, Ledger};
use std::test::Fail;

// An atom is taken, with its number of bytes, unless it has three, or five, which is refused with a reason: the hook 0
// has one of its own.
pub(crate) struct Sizes;

impl Rules for Sizes {
    ghost use Rattle.std.specs.Prelude.{◌==◌, [], codes, if◌then◌else◌, length};
    ghost use Rattle.cm_hooks.specs.FieldBytes.{name_bytes};
    ghost use Rattle.cm_hooks.specs.declared.answer.Answer.TheVariants.{Yes, No, NoBecause};
    ghost use Rattle.cm_hooks.specs.declared.answer.Tail.TheVariants as tails;

    ghost meanings = { λ it. record {
      bytes = λ id. name_bytes;
      names = λ id. [];
      verdict = λ id atom. if length atom == 3 then No
          else if length atom == 5
          then NoBecause (record { number = if id == 0 then 200 else 201; text = codes "Five bytes" })
          else Yes (length atom);
      completion = λ id atom. tails.None;
      help = λ id. [];
    } };

    fn has_byte(&self, _id: u8, byte: u8) -> bool {
        is_name(byte)
    }

    fn names(&self, _id: u8) -> usize {
        0
    }

    fn name(&self, _id: u8, _number: usize) -> Option<Name> {
        None
    }

    fn verdict(&self, id: u8, atom: &[u8]) -> Answer {
        match atom.len() {
            3 => Answer::No,
            5 => Answer::NoBecause(five_bytes(id)),
            size => Answer::Yes(size as u64),
        }
    }

    fn completion(&self, _id: u8, _atom: &[u8]) -> Tail {
        Tail::None
    }

    fn help(&self, _id: u8) -> Name {
        Name::new("")
    }

    fn are_lawful(&self) {}
}

#[tactic(auto, unfolding(cm_fields::specs::Reason::is_reason, cm_fields::specs::Reason::is_reason_text))]
fn five_bytes(id: u8) -> Reason
    ensures { result ≡ record { number = if id == 0 then 200 else 201; text = codes "Five bytes" } }
{
    if id == 0 {
        Reason::of(200, "Five bytes")
    } else {
        Reason::of(201, "Five bytes")
    }
}

// The node that a case gives answers on its text, from the place that it gives.
fn answers_case<L: Ledger>(
    alloc: Global,
    grammar: &Grammar,
    steps: &mut Steps<L>,
    case: &str,
) -> Result<(), Fail> {
    let (given, wanted) = sides(case)?;
    let (node, rest) = numbered(given)?;
    let given = place_of(rest)?;
    if node >= grammar.nodes() {
        return Err(Fail::new("no such node"));
    }
    let chain = try_chain(grammar, node, given.text, given.at, &Sample, &Sizes, steps);
    let answer = debug_text(alloc, &chain)?;
    compare(case, answer.as_str(), wanted)
}

// The bytes of the cases, since a ledger cannot be picked where a text is passed.
fn answer_counted<L: Ledger>(
    rt: &HostRuntime,
    blank: Blank,
    grammar: &Grammar,
    cases: &[u8],
) -> Result<(), Fail>
    requires name { blank.name ≡ L.name }
    requires parts { blank.parts ≡ L.parts }
    requires some { 0 < L.parts }
{
    let mut steps: Steps<L> = Steps::new(rt, blank);
    for case in str::from_utf8(cases)?.lines() {
        answers_case(rt.alloc(), grammar, &mut steps, case)?;
    }
    Ok(())
}

// The nodes of a grammar answer on each case as it wants.
pub(crate) fn answer_chains(rt: &HostRuntime, grammar: &Grammar, cases: &str) -> Result<(), Fail> {
    answer_counted::<Brand>(rt, Blank::new(1), grammar, cases.as_bytes())
}
