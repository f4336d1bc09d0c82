// The rules of mail alone, and the grammar of mail under other rules.
ghost use Rattle.std.specs.Prelude.{◌≡◌, ◌<◌};

use cm_blocks::{Chain, Grammar, Steps, try_chain};
use cm_files::OneDirectory;
use cm_hooks::{Answer, Rules, Tail};
use cm_text::{Name, is_name};
use mm_mail::{MailRules, mail_grammar};
use std::alloc::{AllocError, Global};
use std::marker::Brand;
use std::sync::ledger::{Blank, Ledger};
use std::test::Fail;

// Each line has an atom, and what the rule says of it.
const VERDICTS: &str = "|No
0|No
0000|No
1|Yes(1)
9|Yes(9)
10|Yes(10)
0007|Yes(7)
9999|Yes(9999)
00009999|Yes(9999)
10000|No
09999a|No
1A|No
A|No
-1|No
+1|No
1.|No
18446744073709551617|No
99999999999999999999999999999999999999999999999999999999999999999999|No
00000000000000000000000000000000000000000000000000000000000000000001|Yes(1)";

fn has_verdict(alloc: Global, case: &str) -> Result<(), Fail> {
    let (atom, wanted) = case.split_once('|').ok_or("an atom and an answer")?;
    if atom.len() > 255 {
        return Err(Fail::new("an atom that is no part of a line"));
    }
    let answer = format!(in alloc; "{:?}", MailRules.verdict(0, atom.as_bytes()))?;
    compare(case, answer.as_str(), wanted)
}

fn compare(case: &str, answer: &str, wanted: &str) -> Result<(), Fail> {
    if answer == wanted {
        Ok(())
    } else {
        Err(Fail::new(format_args!("{case:?} gives {answer:?}")))
    }
}

#[test]
fn numbers_of_messages_are_told(rt: HostRuntime) -> Result<(), Fail> {
    for case in VERDICTS.lines() {
        has_verdict(rt.alloc(), case)?;
    }
    Ok(())
}

#[test]
fn nothing_goes_on_to_a_number(rt: HostRuntime) {
    assert!(rt; matches!(MailRules.completion(0, b"12"), Tail::None));
    assert!(rt; matches!(MailRules.completion(0, b""), Tail::None));
    assert_eq!(rt; MailRules.help(0).as_str(), "message number");
}

#[test]
fn the_grammar_has_eight_nodes(rt: HostRuntime) -> Result<(), Fail> {
    assert_eq!(rt; mail_grammar(rt.alloc())?.nodes(), 8);
    Ok(())
}

// Other rules: an atom is taken, with its number of bytes, unless it has three.
struct Sizes;

impl Rules for Sizes {
    ghost use Rattle.std.specs.Prelude.{◌==◌, [], if◌then◌else◌, length};
    ghost use Rattle.cm_hooks.specs.FieldBytes.{name_bytes};
    ghost use Rattle.cm_hooks.specs.declared.answer.Answer.TheVariants.{Yes, No};
    ghost use Rattle.cm_hooks.specs.declared.answer.Tail.TheVariants as tails;

    ghost meanings = { λ it. record {
      bytes = λ id. name_bytes;
      names = λ id. [];
      verdict = λ id atom. if length atom == 3 then No else Yes (length atom);
      completion = λ id atom. tails.None;
      help = λ id. [];
    } };

    fn has_byte(&self, _id: u8, byte: u8) -> bool {
        is_name(byte)
    }

    fn names(&self, _id: u8) -> usize {
        0
    }

    fn name(&self, _id: u8, _number: usize) -> Option<Name> {
        None
    }

    fn verdict(&self, _id: u8, atom: &[u8]) -> Answer {
        match atom.len() {
            3 => Answer::No,
            size => Answer::Yes(size as u64),
        }
    }

    fn completion(&self, _id: u8, _atom: &[u8]) -> Tail {
        Tail::None
    }

    fn help(&self, _id: u8) -> Name {
        Name::new("")
    }

    fn are_lawful(&self) {}
}

// Each line has what is where the number of a message is read, and what its chain says: the rules that are
// lent are asked, so that a number that the rule of mail takes is refused, and what it refuses is taken.
const FIELDS: &str = "123|Fault(Fault { code: Rejected, node: 2, at: 0 })
0|Hook { id: 0, value: 1 } 0..1
ABCDE|Hook { id: 0, value: 5 } 0..5
|Fault(Fault { code: NoField, node: 2, at: 0 })";

#[tactic(auto, unfolding(cm_text::specs::Bytes::is_name, cm_text::specs::Bytes::is_word))]
fn answer_field<L: Ledger>(
    alloc: Global,
    grammar: &Grammar,
    steps: &mut Steps<L>,
    case: &str,
) -> Result<(), Fail> {
    let (atom, wanted) = case.split_once('|').ok_or("an atom and an answer")?;
    let text = format!(in alloc; "{atom}\r")?;
    if text.len() > 256 || grammar.nodes() <= 2 {
        return Err(Fail::new("no such text or node"));
    }
    let names = OneDirectory::new("OPERATOR");
    let chain = try_chain(grammar, 2, text.as_bytes(), 0, &names, &Sizes, steps);
    compare(case, told(alloc, &chain)?.as_str(), wanted)
}

// What a field stands for, and its place; or why there is none.
fn told(alloc: Global, chain: &Chain) -> Result<String, AllocError> {
    match chain {
        Chain::Field(field) => {
            format!(in alloc; "{:?} {}..{}", field.value(), field.start(), field.end())
        }
        _ => format!(in alloc; "{chain:?}"),
    }
}

// The bytes of the cases, since a ledger cannot be picked where a text is passed.
fn answer_counted<L: Ledger>(rt: &HostRuntime, blank: Blank, cases: &[u8]) -> Result<(), Fail>
    requires name { blank.name ≡ L.name }
    requires parts { blank.parts ≡ L.parts }
    requires some { 0 < L.parts }
{
    let grammar = mail_grammar(rt.alloc())?;
    let mut steps: Steps<L> = Steps::new(rt, blank);
    for case in str::from_utf8(cases)?.lines() {
        answer_field(rt.alloc(), &grammar, &mut steps, case)?;
    }
    Ok(())
}

fn answer_fields(rt: &HostRuntime, cases: &str) -> Result<(), Fail> {
    answer_counted::<Brand>(rt, Blank::new(1), cases.as_bytes())
}

#[test]
fn asks_the_rules_that_are_lent(rt: HostRuntime) -> Result<(), Fail> {
    answer_fields(&rt, FIELDS)
}
