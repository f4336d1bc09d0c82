// What the words of the program ask for.
ghost use Rattle.std.specs.Prelude.{◌≡◌};
ghost use Rattle.std.specs.Option.{option_map};
ghost use Rattle.ex_system.specs.WordViews.{form_view};
ghost use Rattle.mm_mail.specs.Form.{form_of, usage};

use ex_system::{Form, Words, as_pair, in_out};

/// What is shown where the words ask for nothing that the program does.
#[tactic(auto, unfolding(crate::specs::Form::usage))]
pub(crate) fn usage() -> &'static str
    ensures { result.now ≡ usage }
{
    "Usage: mm20 IN OUT"
}

/// What the words ask for: `IN OUT`, two files.
#[tactic(auto, unfolding(crate::specs::Form::form_of))]
pub(crate) fn read_form(words: &Words) -> Option<Form<'_>>
    ensures { option_map form_view result ≡ form_of words.now }
{
    match as_pair(words) {
        Some(two) => in_out(false, two.first, two.second),
        None => None,
    }
}
