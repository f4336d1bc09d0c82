// Cases as text, a line for each: what is given, ` => `, and what is wanted of it.
ghost use Rattle.std.specs.Prelude.{◌≤◌, IfOk, length};

use cm_text::TEXT_LIMIT;
use std::alloc::Global;
use std::fmt::Debug;
use std::test::Fail;

// What answers on what a case gives, in words.
pub(crate) trait Subject {
    fn answer(&self, alloc: Global, given: &str) -> Result<String, Fail>;
}

// A value as `{:?}` shows it.
pub(crate) fn debug_text<D: Debug>(alloc: Global, value: &D) -> Result<String, Fail> {
    Ok(format!(in alloc; "{value:?}")?)
}

// The two sides of a case.
pub(crate) fn sides(case: &str) -> Result<(&str, &str), Fail> {
    Ok(case.split_once(" => ").ok_or("a case gives and wants")?)
}

// The answer to a case is the one that it wants.
pub(crate) fn compare(case: &str, answer: &str, wanted: &str) -> Result<(), Fail> {
    if answer == wanted {
        Ok(())
    } else {
        Err(Fail::new(format_args!("{case:?} gives {answer:?}")))
    }
}

fn holds<S: Subject>(alloc: Global, subject: &S, case: &str) -> Result<(), Fail> {
    let (given, wanted) = sides(case)?;
    let answer = subject.answer(alloc, given)?;
    compare(case, answer.as_str(), wanted)
}

// The subject answers on each case as it wants.
pub(crate) fn hold<S: Subject>(alloc: Global, subject: &S, cases: &str) -> Result<(), Fail> {
    for case in cases.lines() {
        holds(alloc, subject, case)?;
    }
    Ok(())
}

// The bytes of a text that is no longer than a finished line may be.
pub(crate) fn text_of(given: &str) -> Result<&[u8], Fail>
    ensures { IfOk result (λ text. length text.now ≤ TEXT_LIMIT) }
{
    let text = given.as_bytes();
    if text.len() > TEXT_LIMIT {
        return Err(Fail::new("a text is too long"));
    }
    Ok(text)
}

// A text, and a place in it.
#[derive(Clone, Copy)]
pub(crate) struct Placed<'a> {
    pub text: &'a [u8],
    pub at: usize,
}

// A number, and what is after it and a blank.
pub(crate) fn numbered(given: &str) -> Result<(u16, &str), Fail> {
    let (number, rest) = given.split_once(' ').ok_or("a number is given first")?;
    Ok((number.parse::<u16>()?, rest))
}

// The place that is given before the text, and the text.
pub(crate) fn place_of(given: &str) -> Result<Placed<'_>, Fail>
    ensures short { IfOk result (λ placed. length placed.text.now ≤ TEXT_LIMIT) }
    ensures place { IfOk result (λ placed. placed.at ≤ length placed.text.now) }
{
    let (number, rest) = numbered(given)?;
    let text = text_of(rest)?;
    let at = usize::from(number);
    if at > text.len() {
        return Err(Fail::new("the place is after the text"));
    }
    Ok(Placed { text, at })
}
