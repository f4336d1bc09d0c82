// Rules, and the field that asks them.
ghost use Rattle.std.specs.Prelude.{◌≡◌, codes};

use crate::cases::{is_wanted, number, part};
use cm_fields::Reason;
use cm_hooks::{Answer, NoRules, Rules, Tail, completion_among, hook_field, verdict_among};
use cm_text::{Name, is_name};
use std::alloc::Global;
use std::convert::AsStr;
use std::process::Abort;
use std::test::Fail;

// All atoms but those of three and of five bytes are taken, with their number of bytes and the id; those of five are
// refused with a reason. All go on with an X.
struct Sample;

impl Rules for Sample {
    ghost use Rattle.std.specs.Prelude.{◌+◌, ◌==◌, [], ◌∷◌, codes, if◌then◌else◌, length};
    ghost use Rattle.cm_hooks.specs.FieldBytes.{name_bytes};
    ghost use Rattle.cm_hooks.specs.declared.answer.Answer.TheVariants.{Yes, No, NoBecause};
    ghost use Rattle.cm_hooks.specs.declared.answer.Tail.TheVariants as tails;

    ghost meanings = { λ it. record {
      bytes = λ id. name_bytes;
      names = λ id. [];
      verdict = λ id atom. if length atom == 3 then No
          else if length atom == 5 then NoBecause (record { number = 200; text = codes "Five bytes" })
          else Yes (length atom + id);
      completion = λ id atom. tails.Part (88 ∷ []);
      help = λ id. 88 ∷ [];
    } };

    fn has_byte(&self, _id: u8, byte: u8) -> bool {
        is_name(byte)
    }

    fn names(&self, _id: u8) -> usize {
        0
    }

    fn name(&self, _id: u8, _number: usize) -> Option<Name> {
        None
    }

    fn verdict(&self, id: u8, atom: &[u8]) -> Answer {
        match atom.len() {
            3 => Answer::No,
            5 => Answer::NoBecause(five_bytes()),
            size => Answer::Yes(size as u64 + u64::from(id)),
        }
    }

    fn completion(&self, _id: u8, _atom: &[u8]) -> Tail {
        Tail::Part(Name::new("X"))
    }

    fn help(&self, _id: u8) -> Name {
        Name::new("X")
    }

    #[tactic(auto, unfolding(cm_text::specs::Bytes::is_name, cm_text::specs::Bytes::is_word))]
    fn are_lawful(&self) {}
}

#[tactic(auto, unfolding(cm_fields::specs::Reason::is_reason, cm_fields::specs::Reason::is_reason_text))]
pub(crate) fn five_bytes() -> Reason
    ensures { result ≡ record { number = 200; text = codes "Five bytes" } }
{
    Reason::of(200, "Five bytes")
}

// What the hook with the id 2 makes of texts.
const FIELDS: &str = "\
AB|0|More
AB |0|Accept { value: Hook { id: 2, value: 4 }, looked: 3, end: 2 }
AB$_-9 C|0|Accept { value: Hook { id: 2, value: 8 }, looked: 7, end: 6 }
AB ABC\r|3|Refuse { code: Rejected, looked: 4 }
AB ABCDE\r|3|Refuse { code: Own(Reason { number: 200, text: \"Five bytes\" }), looked: 6 }
AB .|3|Refuse { code: NoField, looked: 1 }
AB |3|More";

fn judges_a_field(
    rt: &impl Abort,
    alloc: Global,
    rules: &impl Rules,
    case: &str,
) -> Result<(), Fail> {
    let text = part(rt, case, 0).as_bytes();
    let at = usize::from(number(rt, part(rt, case, 1)));
    assert!(rt; at <= text.len() && text.len() <= 256, "{case}");
    let tried = hook_field(rules, 2, text, at);
    is_wanted(rt, case, format!(in alloc; "{tried:?}")?.as_str());
    Ok(())
}

// The rules make of the texts what is wanted.
pub(crate) fn judges_fields(
    rt: &impl Abort,
    alloc: Global,
    rules: &impl Rules,
) -> Result<(), Fail> {
    for case in FIELDS.lines() {
        judges_a_field(rt, alloc, rules, case)?;
    }
    Ok(())
}

// [own-field]
#[test]
fn rules_judge_a_field(rt: HostRuntime) -> Result<(), Fail> {
    judges_fields(&rt, rt.alloc(), &Sample)
}

// A lamp, which lends its name.
#[derive(Drop)]
struct Lamp {
    name: Name,
}

impl AsStr for Lamp {
    ghost text = { λ lamp. lamp.name };

    fn as_str(&self) -> &str {
        self.name.as_str()
    }
}

// Rules that look into data: an atom stands for one of the lamps that are there now.
#[derive(Drop)]
struct Lamps {
    lamps: Vec<Lamp>,
}

impl Rules for Lamps {
    ghost use Rattle.std.specs.Prelude.{[], map};
    ghost use Rattle.cm_hooks.specs.Among.{verdict_among};
    ghost use Rattle.cm_hooks.specs.FieldBytes.{name_bytes};
    ghost use Rattle.cm_hooks.specs.declared.answer.Tail.TheVariants as tails;
    ghost use Rattle.cm_fields_tests.specs.declared.hooks.Lamp.{Lamp};

    ghost meanings = { λ it. record {
      bytes = λ id. name_bytes;
      names = λ id. [];
      verdict = λ id atom. verdict_among (map (λ (lamp : Lamp). lamp.name) it.lamps.items) atom;
      completion = λ id atom. tails.None;
      help = λ id. [];
    } };

    fn has_byte(&self, _id: u8, byte: u8) -> bool {
        is_name(byte)
    }

    fn names(&self, _id: u8) -> usize {
        0
    }

    fn name(&self, _id: u8, _number: usize) -> Option<Name> {
        None
    }

    fn verdict(&self, _id: u8, atom: &[u8]) -> Answer {
        verdict_among(self.lamps.as_slice(), atom)
    }

    fn completion(&self, _id: u8, _atom: &[u8]) -> Tail {
        Tail::None
    }

    fn help(&self, _id: u8) -> Name {
        Name::new("")
    }

    fn are_lawful(&self) {}
}

fn judge(rt: &impl Abort, alloc: Global, rules: &impl Rules, wanted: &str) -> Result<(), Fail> {
    let tried = hook_field(rules, 0, b"HALL ", 0);
    is_wanted(rt, wanted, format!(in alloc; "{tried:?}")?.as_str());
    Ok(())
}

#[test]
fn rules_change_with_their_data(rt: HostRuntime) -> Result<(), Fail> {
    let alloc = rt.alloc();
    let mut rules = Lamps {
        lamps: Vec::new(alloc),
    };
    judge(&rt, alloc, &rules, "|Refuse { code: Rejected, looked: 5 }")?;
    rules.lamps.push(Lamp {
        name: Name::new("HALLWAY"),
    })?;
    judge(
        &rt,
        alloc,
        &rules,
        "|Accept { value: Hook { id: 0, value: 0 }, looked: 5, end: 4 }",
    )?;
    rules.lamps.push(Lamp {
        name: Name::new("HALL-2"),
    })?;
    judge(&rt, alloc, &rules, "|Refuse { code: Rejected, looked: 5 }")
}

#[test]
fn without_rules_no_field_is_taken(rt: HostRuntime) -> Result<(), Fail> {
    judge(
        &rt,
        rt.alloc(),
        &NoRules,
        "|Refuse { code: Rejected, looked: 5 }",
    )?;
    assert_eq!(rt; shown(&NoRules.completion(0, b"H")), None);
    assert_eq!(rt; NoRules.help(0).as_str(), "");
    Ok(())
}

// STAIR is the beginning of STAIRS, and stands for itself. Two names go on alike but for the case of letters.
const NAMES: [&str; 7] = [
    "HALL", "KITCHEN", "STAIRS", "STAIR", "STUDY", "Porch", "PORT-2$_",
];

const VERDICTS: &str = "\
|No
H|Yes(0)
hall|Yes(0)
HALLS|No
kit|Yes(1)
S|No
ST|No
STA|No
STAIR|Yes(3)
stair|Yes(3)
stairs|Yes(2)
STU|Yes(4)
por|No
porc|Yes(5)
port-2$_|Yes(6)
ALL|No
X|No";

fn is_judged(rt: &impl Abort, alloc: Global, case: &str) -> Result<(), Fail> {
    let answer = verdict_among(&NAMES, part(rt, case, 0).as_bytes());
    is_wanted(rt, case, format!(in alloc; "{answer:?}")?.as_str());
    Ok(())
}

#[test]
fn one_name_is_told_by_its_beginning(rt: HostRuntime) -> Result<(), Fail> {
    for case in VERDICTS.lines() {
        is_judged(&rt, rt.alloc(), case)?;
    }
    Ok(())
}

// What a completion adds, and whether the atom is whole with it.
pub(crate) fn shown(tail: &Tail) -> Option<(&str, bool)> {
    match tail {
        Tail::None => None,
        Tail::Part(text) => Some((text.as_str(), false)),
        Tail::Whole(text) => Some((text.as_str(), true)),
    }
}

// Two that go on alike but for their case share nothing more.
const TAILS: &str = "\
|None
H|Some((\"ALL\", true))
ha|Some((\"LL\", true))
HALL|Some((\"\", true))
HALLS|None
S|Some((\"T\", false))
ST|Some((\"\", false))
STA|Some((\"IR\", false))
STAIR|Some((\"\", true))
stair|Some((\"\", true))
STAIRS|Some((\"\", true))
P|Some((\"\", false))
po|Some((\"\", false))
PORC|Some((\"h\", true))
X|None";

#[tactic(auto, unfolding(cm_text::specs::Bytes::is_name, cm_text::specs::Bytes::is_word))]
fn goes_on(rt: &impl Abort, alloc: Global, case: &str) -> Result<(), Fail> {
    let tail = completion_among(&NAMES, part(rt, case, 0).as_bytes());
    is_wanted(rt, case, format!(in alloc; "{:?}", shown(&tail))?.as_str());
    Ok(())
}

#[test]
fn an_atom_goes_on_to_the_names_under_it(rt: HostRuntime) -> Result<(), Fail> {
    for case in TAILS.lines() {
        goes_on(&rt, rt.alloc(), case)?;
    }
    Ok(())
}

#[test]
#[tactic(auto, unfolding(cm_text::specs::Bytes::is_name, cm_text::specs::Bytes::is_word))]
fn of_no_names_none_is_told(rt: HostRuntime) {
    assert_eq!(rt; verdict_among::<&str>(&[], b"A"), Answer::No);
    assert_eq!(rt; shown(&completion_among::<&str>(&[], b"A")), None);
}

#[test]
#[tactic(auto, unfolding(cm_text::specs::Bytes::is_name, cm_text::specs::Bytes::is_word))]
fn a_name_of_no_bytes_begins_with_the_empty_atom_alone(rt: HostRuntime) {
    assert_eq!(rt; verdict_among(&["", "A"], b""), Answer::No);
    assert_eq!(rt; verdict_among(&["", "A"], b"A"), Answer::Yes(1));
}

#[test]
#[tactic(auto, unfolding(cm_text::specs::Bytes::is_name, cm_text::specs::Bytes::is_word))]
fn of_two_equal_names_none_is_told(rt: HostRuntime) {
    let names = ["HALL", "Hall", "HALLWAY"];
    assert_eq!(rt; verdict_among(&names, b"hall"), Answer::No);
    assert_eq!(rt;
        shown(&completion_among(&names, b"hall")),
        Some(("", false))
    );
}
