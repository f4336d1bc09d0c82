//! Laws of hooks.
ghost use Rattle.std.specs.Prelude.{◌≡◌, ℕ, List, true};
ghost use Rattle.cm_text.specs.Bytes.{is_name};
ghost use Rattle.cm_fields.specs.Local.{IsLocal};
ghost use Rattle.cm_hooks.specs.Among.{are_names, completion_among, verdict_among};
ghost use Rattle.cm_hooks.specs.Field.{hook};
ghost use Rattle.cm_hooks.specs.Meanings.{Completes, IsLawful, Meanings};
ghost use Rattle.cm_hooks.specs.declared.hooks.TheConstants.{HOOKS_LIMIT};

use crate::Rules;

/// What the trial decides on the first bytes of a text it decides on every text that begins with them, with
/// the same number of bytes looked at; so a decision on a text is the decision on every longer text.
pub fn hook_field_is_local()
    ensures { (meanings : Meanings) (id : ℕ) → IsLocal (hook meanings id) }
{}

/// Whatever the rules, what completes an atom is bytes of the field, and an atom with its whole completion has at
/// most 255 bytes and is taken.
pub fn completions_are_taken<R: Rules>(rules: &R)
    ensures { IsLawful (R.meanings rules.now) }
{
    rules.are_lawful();
}

/// What completes an atom to one of several names is name bytes, and where it completes it whole, the two together
/// have at most 255 bytes and are taken. So it is of all names of name bytes, each of at most 39.
pub fn completions_among_names_are_taken()
    ensures { (names : List (List ℕ)) → are_names names ≡ true → (atom : List ℕ)
        → Completes is_name (verdict_among names) atom (completion_among names atom) }
{}

/// At most 16 hooks are held.
pub fn these_are_the_numbers()
    ensures hooks { HOOKS_LIMIT ≡ 16 }
{}
