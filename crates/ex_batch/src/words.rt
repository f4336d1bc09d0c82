// The words of a control file.
ghost use Rattle.std.specs.Prelude.{◌≡◌};
ghost use Rattle.ex_batch.specs.Control.{colons, goto_word, if_error, if_no_error, if_word};

/// Before an order that is done where the line before was refused.
#[tactic(auto, unfolding(crate::specs::Control::if_error))]
pub(crate) fn if_error() -> &'static [u8]
    ensures { result.now ≡ if_error }
{
    b"@IF (ERROR) "
}

/// Before an order that is done where the line before was not refused.
#[tactic(auto, unfolding(crate::specs::Control::if_no_error))]
pub(crate) fn if_no_error() -> &'static [u8]
    ensures { result.now ≡ if_no_error }
{
    b"@IF (NOERROR) "
}

/// What no line of the EXEC's begins with: a condition.
#[tactic(auto, unfolding(crate::specs::Control::if_word))]
pub(crate) fn if_word() -> &'static [u8]
    ensures { result.now ≡ if_word }
{
    b"@IF "
}

/// Before the name of the label at which the run goes on.
#[tactic(auto, unfolding(crate::specs::Control::goto_word))]
pub(crate) fn goto_word() -> &'static [u8]
    ensures { result.now ≡ goto_word }
{
    b"@GOTO "
}

/// After the name of a label.
#[tactic(auto, unfolding(crate::specs::Control::colons))]
pub(crate) fn colons() -> &'static [u8]
    ensures { result.now ≡ colons }
{
    b"::"
}
