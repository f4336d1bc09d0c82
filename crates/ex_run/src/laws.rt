//! Laws of a run.
ghost use Rattle.std.specs.Prelude.{◌≡◌, ◌^◌};
ghost use Rattle.ex_run.specs.declared.program.TheConstants.{KEY_LIMIT};

/// The most keys that a run takes.
pub fn these_are_the_numbers()
    ensures { KEY_LIMIT ≡ 2 ^ 24 }
{}
