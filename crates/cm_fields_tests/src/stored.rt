// Hooks that are stored, over the meanings of a sample.
ghost use Rattle.std.specs.Prelude.{◌≡◌, ◌+◌, ◌==◌, [], ◌∷◌, codes, if◌then◌else◌, length};
ghost use Rattle.cm_hooks.specs.Ties.{Ties, count};

use crate::hooks::{five_bytes, judges_fields, shown};
use cm_fields::Try;
use cm_hooks::{Answer, Callbacks, Hook, Hooks, RuleSet, Rules, StoredRules, Tail, hook_field};
use cm_text::Name;
use std::alloc::Global;
use std::process::Abort;
use std::test::Fail;

// All atoms but those of three and of five bytes are taken, with their number of bytes and the id; those of five are
// refused with a reason. All go on with an X, which is the help too.
struct Sample;

impl RuleSet for Sample {
    ghost use Rattle.std.specs.Prelude.{◌+◌, ◌==◌, [], ◌∷◌, codes, if◌then◌else◌, length, refl};
    ghost use Rattle.cm_text.specs.Bytes.{is_name, is_word};
    ghost use Rattle.cm_hooks.specs.FieldBytes.{name_bytes};
    ghost use Rattle.cm_hooks.specs.declared.answer.Answer.TheVariants.{Yes, No, NoBecause};
    ghost use Rattle.cm_hooks.specs.declared.answer.Tail.TheVariants as tails;

    ghost meant = { record {
      bytes = λ id. name_bytes;
      names = λ id. [];
      verdict = λ id atom. if length atom == 3 then No
          else if length atom == 5 then NoBecause (record { number = 200; text = codes "Five bytes" })
          else Yes (length atom + id);
      completion = λ id atom. tails.Part (88 ∷ []);
      help = λ id. 88 ∷ [];
    } };

    ghost lawful = { unfold is_name in unfold is_word in record { completes = λ id atom short. refl } };
}

// What the hooks answer, each by its id.
fn answers_by_id(rt: &impl Abort, hooks: &Hooks<Sample>)
    requires hooks { Ties ⟦<Sample as RuleSet>⟧.meant hooks.now }
    requires all { count hooks.now ≡ 16 }
{
    assert_eq!(rt; hooks.ask(0, b"AB").answer(), Answer::Yes(2));
    assert_eq!(rt; hooks.ask(7, b"ABC").answer(), Answer::No);
    assert_eq!(rt; hooks.ask(15, b"ABCD").answer(), Answer::Yes(19));
    assert_eq!(rt;
        hooks.ask(15, b"ABCDE").answer(),
        Answer::NoBecause(five_bytes())
    );
    assert_eq!(rt; shown(&hooks.complete(3, b"AB")), Some(("X", false)));
    assert_eq!(rt; shown(&hooks.complete(15, b"AB")), Some(("X", false)));
    assert_eq!(rt; hooks.help(3).as_str(), "X");
    assert_eq!(rt; hooks.help(15).as_str(), "X");
}

// What the rules make of fields that the hooks judge, and of an id that none has.
fn are_rules<H: Callbacks>(rt: &impl Abort, alloc: Global, hooks: H) -> Result<(), Fail>
    requires ties { H.ties hooks }
{
    let rules = StoredRules::new(hooks);
    judges_fields(rt, alloc, &rules)?;
    assert_eq!(rt; shown(&rules.completion(3, b"AB")), Some(("X", false)));
    assert_eq!(rt; rules.help(3).as_str(), "X");
    assert!(rt; matches!(hook_field(&rules, 16, b"AB ", 0), Try::Refuse { .. }));
    assert_eq!(rt; shown(&rules.completion(16, b"AB")), None);
    assert_eq!(rt; rules.help(16).as_str(), "");
    Ok(())
}

// The seventeenth is refused, whichever its id.
const IDS: [u8; 22] = [
    1, 0, 0, 2, 1, 2, 3, 4, 5, 6, 7, 8, 9, 10, 11, 12, 13, 14, 16, 15, 16, 15,
];

#[test]
fn hooks_are_held_in_the_order_of_their_ids(rt: HostRuntime) -> Result<(), Fail> {
    let alloc = rt.alloc();
    let mut hooks: Hooks<Sample> = Hooks::new();
    let ids = IDS;
    for id in ids.as_slice() {
        let id = *id;
        let held = hooks.len();
        let verdict = move |atom: &[u8]| -> Answer
            ensures { result ≡
                (if length atom.now == 3 then Answer.No
                else if length atom.now == 5
                then Answer.NoBecause (record { number = 200; text = codes "Five bytes" })
                else Answer.Yes (length atom.now + id)) }
        {
            match atom.len() {
                3 => Answer::No,
                5 => Answer::NoBecause(five_bytes()),
                size => Answer::Yes(size as u64 + u64::from(id)),
            }
        };
        let completion = |_atom: &[u8]| -> Tail
            ensures { result ≡ Tail.Part (88 ∷ []) }
        { Tail::Part(Name::new("X")) };
        let help = || -> Name
            ensures { result ≡ 88 ∷ [] }
        { Name::new("X") };
        let hook = Hook::new(
            id,
            Box::new(alloc, verdict)?,
            Box::new(alloc, completion)?,
            Box::new(alloc, help)?,
        );
        match hooks.push(hook) {
            Ok(()) => assert!(rt; held < 16 && held == id, "{id} is taken"),
            Err(hook) => {
                assert_eq!(rt; hook.id(), id);
                assert!(rt; held == 16 || held != id, "{id} is refused");
            }
        }
    }
    assert_eq!(rt; hooks.len(), 16);
    answers_by_id(&rt, &hooks);
    are_rules(&rt, alloc, hooks.lend())
}
