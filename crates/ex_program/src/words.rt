// What the words of the program ask for.
ghost use Rattle.std.specs.Prelude.{◌≡◌, ◌≤◌, IfSome};
ghost use Rattle.std.specs.Str.{bytes_eq};
ghost use Rattle.std.specs.Option.{option_map};
ghost use Rattle.ex_system.specs.WordViews.{form_view};
ghost use Rattle.ex_program.specs.declared.progress.TheConstants.{GENERATED_LINES};
ghost use Rattle.ex_program.specs.Form.{files_of, form_of, is_number, lines_after, lines_in, lines_of, usage, with_log};

use crate::GENERATED_LINES;
use cm_fields::{are_digits, value_of};
use ex_system::{Form, Words, as_pair, as_triple, in_out, is_name};

// How many digits a number of lines may have.
const MOST_DIGITS: usize = 6;

/// What is shown where the words ask for nothing that the program does.
#[tactic(auto, unfolding(crate::specs::Form::usage))]
pub(crate) fn usage() -> &'static str
    ensures { result.now ≡ usage }
{
    "Usage: exec20 [-w] IN OUT | exec20 [-w] -n OUT | exec20 -g N"
}

/// What the words ask for. None where they ask for no run over keys.
#[tactic(auto, using(crate::proofs::WordLaws::of_two, crate::proofs::WordLaws::of_three, crate::proofs::WordLaws::of_others))]
pub(crate) fn read_form(words: &Words) -> Option<Form<'_>>
    ensures { option_map form_view result ≡ form_of words.now }
{
    if let Some(two) = as_pair(words) {
        return files_of(false, two.first, two.second);
    }
    match as_triple(words) {
        Some(three) => with_log(three.first, three.second, three.third),
        None => None,
    }
}

/// How many lines of generated keys the words ask for. None where they ask for no generated run.
#[tactic(auto, using(crate::proofs::WordLaws::lines_of_two, crate::proofs::WordLaws::lines_of_others))]
pub(crate) fn read_lines(words: &Words) -> Option<u32>
    ensures lines { result ≡ lines_of words.now }
    ensures few { IfSome result (λ lines. lines ≤ GENERATED_LINES) }
{
    match as_pair(words) {
        Some(two) => lines_after(two.first, two.second),
        None => None,
    }
}

// What two words ask for: `-n OUT`, or `IN OUT`.
fn files_of<'a>(logs: bool, first: &'a str, out: &'a str) -> Option<Form<'a>>
    ensures { option_map form_view result ≡ files_of logs first.now out.now }
{
    if is(first, "-n") && is_name(out) {
        return Some(Form {
            logs,
            input: None,
            out,
        });
    }
    in_out(logs, first, out)
}

// What three words ask for: two, and `-w` before them.
fn with_log<'a>(log: &str, first: &'a str, out: &'a str) -> Option<Form<'a>>
    ensures { option_map form_view result ≡ with_log log.now first.now out.now }
{
    if is(log, "-w") {
        return files_of(true, first, out);
    }
    None
}

// Whether bytes are one to six digits.
fn is_number(bytes: &[u8]) -> bool
    ensures { result ≡ is_number bytes.now }
{
    !bytes.is_empty() && bytes.len() <= MOST_DIGITS && are_digits(bytes)
}

// How many lines a word says: one to six digits, of a value from 1 to the most lines of a generated run.
#[tactic(auto, unfolding(crate::specs::Form::lines_in))]
fn lines_in(word: &str) -> Option<u32>
    ensures lines { result ≡ lines_in word.now }
    ensures few { IfSome result (λ lines. lines ≤ GENERATED_LINES) }
{
    let digits = word.as_bytes();
    if !is_number(digits) {
        return None;
    }
    match value_of(digits, u64::from(GENERATED_LINES)) {
        None | Some(0) => None,
        Some(lines) => Some(lines as u32),
    }
}

// How many lines two words ask for: `-g N`.
fn lines_after(flag: &str, count: &str) -> Option<u32>
    ensures lines { result ≡ lines_after flag.now count.now }
    ensures few { IfSome result (λ lines. lines ≤ GENERATED_LINES) }
{
    if is(flag, "-g") {
        return lines_in(count);
    }
    None
}

// Whether a word is this text.
fn is(word: &str, text: &str) -> bool
    ensures { result ≡ bytes_eq word.now text.now }
{
    word == text
}
