// What is read at an exit, and what sort of exit that makes it.
ghost use Rattle.std.specs.Prelude.{◌≡◌, ◌≤◌, length};
ghost use Rattle.std.specs.Option.{option_copied};
ghost use Rattle.cm_text.specs.declared.name.TheConstants.{NAME_LIMIT};
ghost use Rattle.cm_graph.specs.Exits.{has_colon, is_field, is_guide, is_keyword, is_option, is_switch, name_of};

use cm_language::{Exit, step_of};
use cm_synopsis::{Part, Way};

// Whether a part is a keyword.
pub(crate) fn is_keyword(part: Option<&Part>) -> bool
    ensures { result ≡ is_keyword (option_copied part.entry) }
{
    matches!(part, Some(Part::Keyword(_)))
}

// Whether a part is a switch.
pub(crate) fn is_switch(part: Option<&Part>) -> bool
    ensures { result ≡ is_switch (option_copied part.entry) }
{
    matches!(part, Some(Part::Switch(_) | Part::Lead(_)))
}

// Whether a part is a field.
pub(crate) fn is_field(part: Option<&Part>) -> bool
    ensures { result ≡ is_field (option_copied part.entry) }
{
    matches!(part, Some(Part::Field(_, _)))
}

// Whether a part is a guide word.
pub(crate) fn is_guide(part: Option<&Part>) -> bool
    ensures { result ≡ is_guide (option_copied part.entry) }
{
    matches!(part, Some(Part::Guide(_)))
}

// Whether a colon follows a part.
pub(crate) fn has_colon(part: Option<&Part>) -> bool
    ensures { result ≡ has_colon (option_copied part.entry) }
{
    matches!(part, Some(Part::Lead(_)))
}

// The name of what is read.
pub(crate) fn name_of(part: Option<&Part>) -> &str
    ensures value { result.now ≡ name_of (option_copied part.entry) }
    ensures short { length result.now ≤ NAME_LIMIT }
{
    match part {
        Some(
            Part::Keyword(name)
            | Part::Guide(name)
            | Part::Field(name, _)
            | Part::Switch(name)
            | Part::Lead(name),
        ) => name.as_str(),
        _ => "",
    }
}

// Whether a line has what is read at an exit once.
pub(crate) fn is_option(ways: &[Way], exit: Exit) -> bool
    ensures { result ≡ is_option ways.now exit }
{
    match step_of(ways, exit.position) {
        Some(step) => step.option,
        None => false,
    }
}
