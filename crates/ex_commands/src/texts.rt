// The fixed texts of what commands show.
ghost use Rattle.std.specs.Prelude.{◌≡◌};
ghost use Rattle.ex_commands.specs.Texts.{after_mark, arrow, copies_mark, done_mark, dot, farewell, files_counted, forms_mark, from_terminal, job_mark, kept, left_angle, never, note_mark, of_structure, pages_freed, pages_had, queued, quote, right_angle, right_bracket, space, stands_for, structure, total_of, version};

/// Between two parts of a line.
#[tactic(auto, unfolding(crate::specs::Texts::space))]
pub(crate) fn space() -> &'static [u8]
    ensures { result.now ≡ space }
{
    b" "
}

/// Before a type, and before a generation.
#[tactic(auto, unfolding(crate::specs::Texts::dot))]
pub(crate) fn dot() -> &'static [u8]
    ensures { result.now ≡ dot }
{
    b"."
}

/// Before the name of a directory.
#[tactic(auto, unfolding(crate::specs::Texts::left_angle))]
pub(crate) fn left_angle() -> &'static [u8]
    ensures { result.now ≡ left_angle }
{
    b"<"
}

/// After the name of a directory.
#[tactic(auto, unfolding(crate::specs::Texts::right_angle))]
pub(crate) fn right_angle() -> &'static [u8]
    ensures { result.now ≡ right_angle }
{
    b">"
}

/// From one file to another.
#[tactic(auto, unfolding(crate::specs::Texts::arrow))]
pub(crate) fn arrow() -> &'static [u8]
    ensures { result.now ≡ arrow }
{
    b" => "
}

/// From the terminal to a file.
#[tactic(auto, unfolding(crate::specs::Texts::from_terminal))]
pub(crate) fn from_terminal() -> &'static [u8]
    ensures { result.now ≡ from_terminal }
{
    b" TTY: => "
}

/// That it is done.
#[tactic(auto, unfolding(crate::specs::Texts::done_mark))]
pub(crate) fn done_mark() -> &'static [u8]
    ensures { result.now ≡ done_mark }
{
    b" [OK]"
}

/// The structure that all directories are on, before the directory of a listing.
#[tactic(auto, unfolding(crate::specs::Texts::structure))]
pub(crate) fn structure() -> &'static [u8]
    ensures { result.now ≡ structure }
{
    b"   PS:"
}

/// Before the number of files in a listing.
#[tactic(auto, unfolding(crate::specs::Texts::total_of))]
pub(crate) fn total_of() -> &'static [u8]
    ensures { result.now ≡ total_of }
{
    b" Total of "
}

/// After the number of files in a listing.
#[tactic(auto, unfolding(crate::specs::Texts::files_counted))]
pub(crate) fn files_counted() -> &'static [u8]
    ensures { result.now ≡ files_counted }
{
    b" files"
}

/// In the place of the day when a file was last read.
#[tactic(auto, unfolding(crate::specs::Texts::never))]
pub(crate) fn never() -> &'static [u8]
    ensures { result.now ≡ never }
{
    b"Never"
}

/// Before the number of pages that were freed.
#[tactic(auto, unfolding(crate::specs::Texts::pages_freed))]
pub(crate) fn pages_freed() -> &'static [u8]
    ensures { result.now ≡ pages_freed }
{
    b" [Pages freed: "
}

/// After the number of pages that were freed.
#[tactic(auto, unfolding(crate::specs::Texts::right_bracket))]
pub(crate) fn right_bracket() -> &'static [u8]
    ensures { result.now ≡ right_bracket }
{
    b"]"
}

/// The program and its version.
#[tactic(auto, unfolding(crate::specs::Texts::version))]
pub(crate) fn version() -> &'static [u8]
    ensures { result.now ≡ version }
{
    b" EXEC20 1"
}

/// What is at the end of the run.
#[tactic(auto, unfolding(crate::specs::Texts::farewell))]
pub(crate) fn farewell() -> &'static [u8]
    ensures { result.now ≡ farewell }
{
    b"Logged out"
}

/// Before a file that is queued.
#[tactic(auto, unfolding(crate::specs::Texts::queued))]
pub(crate) fn queued() -> &'static [u8]
    ensures { result.now ≡ queued }
{
    b" Queued "
}

/// Before the directory that INFORMATION tells about.
#[tactic(auto, unfolding(crate::specs::Texts::of_structure))]
pub(crate) fn of_structure() -> &'static [u8]
    ensures { result.now ≡ of_structure }
{
    b" PS:"
}

/// Before its count of generations.
#[tactic(auto, unfolding(crate::specs::Texts::kept))]
pub(crate) fn kept() -> &'static [u8]
    ensures { result.now ≡ kept }
{
    b" Generations to keep: "
}

/// Before its pages.
#[tactic(auto, unfolding(crate::specs::Texts::pages_had))]
pub(crate) fn pages_had() -> &'static [u8]
    ensures { result.now ≡ pages_had }
{
    b" Pages: "
}

/// Between a logical name and its directory.
#[tactic(auto, unfolding(crate::specs::Texts::stands_for))]
pub(crate) fn stands_for() -> &'static [u8]
    ensures { result.now ≡ stands_for }
{
    b": => PS:"
}

/// Before the copies of an entry of the print queue.
#[tactic(auto, unfolding(crate::specs::Texts::copies_mark))]
pub(crate) fn copies_mark() -> &'static [u8]
    ensures { result.now ≡ copies_mark }
{
    b" /COPIES:"
}

/// Before its form.
#[tactic(auto, unfolding(crate::specs::Texts::forms_mark))]
pub(crate) fn forms_mark() -> &'static [u8]
    ensures { result.now ≡ forms_mark }
{
    b" /FORMS:"
}

/// Before its job.
#[tactic(auto, unfolding(crate::specs::Texts::job_mark))]
pub(crate) fn job_mark() -> &'static [u8]
    ensures { result.now ≡ job_mark }
{
    b" /JOBNAME:"
}

/// Before its day.
#[tactic(auto, unfolding(crate::specs::Texts::after_mark))]
pub(crate) fn after_mark() -> &'static [u8]
    ensures { result.now ≡ after_mark }
{
    b" /AFTER:"
}

/// Before its note.
#[tactic(auto, unfolding(crate::specs::Texts::note_mark))]
pub(crate) fn note_mark() -> &'static [u8]
    ensures { result.now ≡ note_mark }
{
    b" /NOTE:\""
}

/// After its note.
#[tactic(auto, unfolding(crate::specs::Texts::quote))]
pub(crate) fn quote() -> &'static [u8]
    ensures { result.now ≡ quote }
{
    b"\""
}
