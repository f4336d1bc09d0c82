// The fixed texts of a banner.
ghost use Rattle.std.specs.Prelude.{◌≡◌};
ghost use Rattle.ex_spool.specs.Texts.{before_copies, before_copy, before_file, before_form, before_job, before_note, dot, left_angle, not_there, right_angle};

/// Before the name of a job.
#[tactic(auto, unfolding(crate::specs::Texts::before_job))]
pub(crate) fn before_job() -> &'static [u8]
    ensures { result.now ≡ before_job }
{
    b" JOB "
}

/// Before the full name of a file.
#[tactic(auto, unfolding(crate::specs::Texts::before_file))]
pub(crate) fn before_file() -> &'static [u8]
    ensures { result.now ≡ before_file }
{
    b" FILE "
}

/// Before the name of a form.
#[tactic(auto, unfolding(crate::specs::Texts::before_form))]
pub(crate) fn before_form() -> &'static [u8]
    ensures { result.now ≡ before_form }
{
    b" FORM "
}

/// Before the number of a copy.
#[tactic(auto, unfolding(crate::specs::Texts::before_copy))]
pub(crate) fn before_copy() -> &'static [u8]
    ensures { result.now ≡ before_copy }
{
    b" COPY "
}

/// Between the number of a copy and how many there are.
#[tactic(auto, unfolding(crate::specs::Texts::before_copies))]
pub(crate) fn before_copies() -> &'static [u8]
    ensures { result.now ≡ before_copies }
{
    b" OF "
}

/// Before a note.
#[tactic(auto, unfolding(crate::specs::Texts::before_note))]
pub(crate) fn before_note() -> &'static [u8]
    ensures { result.now ≡ before_note }
{
    b" NOTE "
}

/// After the name of a file that is not there.
#[tactic(auto, unfolding(crate::specs::Texts::not_there))]
pub(crate) fn not_there() -> &'static [u8]
    ensures { result.now ≡ not_there }
{
    b" IS NOT THERE"
}

/// Before the name of a directory.
#[tactic(auto, unfolding(crate::specs::Texts::left_angle))]
pub(crate) fn left_angle() -> &'static [u8]
    ensures { result.now ≡ left_angle }
{
    b"<"
}

/// After the name of a directory.
#[tactic(auto, unfolding(crate::specs::Texts::right_angle))]
pub(crate) fn right_angle() -> &'static [u8]
    ensures { result.now ≡ right_angle }
{
    b">"
}

/// Before a type, and before a generation.
#[tactic(auto, unfolding(crate::specs::Texts::dot))]
pub(crate) fn dot() -> &'static [u8]
    ensures { result.now ≡ dot }
{
    b"."
}
