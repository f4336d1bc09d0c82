// What is before each figure of a summary.
ghost use Rattle.std.specs.Prelude.{◌≡◌};
ghost use Rattle.ex_program.specs.Summary.{before_generations, before_keys, before_lines, before_refused, before_shown};

/// Before the number of lines.
#[tactic(auto, unfolding(crate::specs::Summary::before_lines))]
pub(crate) fn before_lines() -> &'static [u8]
    ensures { result.now ≡ before_lines }
{
    b"lines "
}

/// Before the number of lines that were refused.
#[tactic(auto, unfolding(crate::specs::Summary::before_refused))]
pub(crate) fn before_refused() -> &'static [u8]
    ensures { result.now ≡ before_refused }
{
    b" refused "
}

/// Before the number of keys.
#[tactic(auto, unfolding(crate::specs::Summary::before_keys))]
pub(crate) fn before_keys() -> &'static [u8]
    ensures { result.now ≡ before_keys }
{
    b" keys "
}

/// Before the number of bytes that were shown.
#[tactic(auto, unfolding(crate::specs::Summary::before_shown))]
pub(crate) fn before_shown() -> &'static [u8]
    ensures { result.now ≡ before_shown }
{
    b" shown "
}

/// Before the number of generations.
#[tactic(auto, unfolding(crate::specs::Summary::before_generations))]
pub(crate) fn before_generations() -> &'static [u8]
    ensures { result.now ≡ before_generations }
{
    b" generations "
}
