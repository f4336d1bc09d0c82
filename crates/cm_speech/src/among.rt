// Which of the names of a list an atom stands for.
ghost use Rattle.std.specs.Prelude.{◌≡◌, ◌≤◌, drop, length, true};
ghost use Rattle.std.specs.Str.{IsAscii};
ghost use Rattle.cm_text.specs.Case.{begins_with};
ghost use Rattle.cm_hooks.specs.Among.{completion_among, has_name, is_under, joined, shared, verdict_among};
ghost use Rattle.cm_speech.specs.Rules.{are_texts, is_speech_text};

use cm_hooks::{Answer, Tail};
use cm_text::{NAME_LIMIT, Name, begins_with, common_len, equals};

// Whether one of some names is an atom.
fn has_name(names: &[Name], atom: &[u8]) -> bool
    ensures { result ≡ has_name names.now atom.now }
{
    for name in names {
        if equals(name.as_bytes(), atom) {
            return true;
        }
    }
    false
}

// Whether a name is an atom, where a whole one is asked for, and else whether it begins with it.
#[tactic(auto, using(cm_hooks::specs::AmongLaws::equal_begins))]
fn is_under(whole: bool, name: &[u8], atom: &[u8]) -> bool
    ensures value { result ≡ is_under whole atom.now name.now }
    ensures begins { result ≡ true → begins_with name.now atom.now ≡ true }
{
    if whole {
        equals(name, atom)
    } else {
        begins_with(name, atom)
    }
}

// Whether an atom stands for one of some names.
#[tactic(auto, unfolding(cm_hooks::specs::Among::verdict_among))]
pub(crate) fn judge_among(names: &[Name], atom: &[u8]) -> Answer
    ensures { result ≡ verdict_among names.now atom.now }
{
    if atom.is_empty() {
        return Answer::No;
    }
    let whole = has_name(names, atom);
    let mut found = None;
    for (number, name) in names.iter().enumerate() {
        if is_under(whole, name.as_bytes(), atom) {
            if found.is_some() {
                return Answer::No;
            }
            found = Some(number as u64);
        }
    }
    found.map_or(Answer::No, Answer::Yes)
}

// What is left of a name after an atom.
fn rest<'a>(name: &'a str, atom: &[u8]) -> &'a str
    requires name { is_speech_text name.now ≡ true }
    requires begins { begins_with name.now atom.now ≡ true }
    ensures value { result.now ≡ drop (length atom.now) name.now }
    ensures within { length result.now ≤ NAME_LIMIT }
    ensures ascii { IsAscii result.now }
{
    &name[atom.len()..]
}

// What a text begins with as one before it does.
fn shared<'a>(before: &[u8], text: &'a str) -> &'a str
    requires { IsAscii text.now }
    ensures value { result.now ≡ shared before.now text.now }
    ensures within { length result.now ≤ length text.now }
{
    &text[..common_len(text.as_bytes(), before)]
}

// A completion with the rest of one name more.
fn joined(tail: Tail, rest: &str) -> Tail
    requires short { length rest.now ≤ NAME_LIMIT }
    requires ascii { IsAscii rest.now }
    ensures { result ≡ joined tail rest.now }
{
    match tail {
        Tail::None => Tail::Whole(Name::new(rest)),
        Tail::Part(text) => Tail::Part(Name::new(shared(text.as_bytes(), rest))),
        Tail::Whole(text) => Tail::Part(Name::new(shared(text.as_bytes(), rest))),
    }
}

// How an atom goes on to one of some names.
#[tactic(auto, unfolding(cm_hooks::specs::Among::completion_among))]
pub(crate) fn complete_among(names: &[Name], atom: &[u8]) -> Tail
    requires { are_texts names.now ≡ true }
    ensures { result ≡ completion_among names.now atom.now }
{
    if atom.is_empty() {
        return Tail::None;
    }
    let whole = has_name(names, atom);
    let mut tail = Tail::None;
    for name in names {
        if is_under(whole, name.as_bytes(), atom) {
            tail = joined(tail, rest(name.as_str(), atom));
        }
    }
    tail
}
