// Names of files and directories are put.
#![tactic(auto, using(cm_io::proofs::Texts::texts))]

ghost use Rattle.std.specs.Prelude.{◌≡◌};
ghost use Rattle.cm_io.specs.Writer.{Writes};
ghost use Rattle.ex_store.specs.Views.{full_name, row_of_view};
ghost use Rattle.ex_store.specs.Rows.{full_of};
ghost use Rattle.ex_commands.specs.Replies.{directory_text, file_text, full_text};

use crate::texts::{dot, left_angle, right_angle};
use cm_io::{Sink, Writer};
use ex_store::{Full, RowView};

/// The full name of a file that a store has.
pub fn full_of(row: RowView<'_>) -> Full<'_>
    ensures { full_name result ≡ full_of (row_of_view row.entry) }
{
    Full {
        directory: row.directory.as_str(),
        name: row.name.as_str(),
        kind: row.kind.as_str(),
        generation: row.file.generation,
    }
}

/// Puts NAME.TYPE.GENERATION of a file.
#[tactic(auto, using(cm_io::proofs::Texts::texts), unfolding(crate::specs::Replies::file_text))]
pub fn put_file<S: Sink>(full: Full<'_>, out: &mut Writer<'_, S>)
    ensures { Writes S.Sink out.old out.new (file_text (full_name full.entry)) }
{
    out.put(full.name.as_bytes());
    out.put(dot());
    out.put(full.kind.as_bytes());
    out.put(dot());
    out.put_decimal(u64::from(full.generation));
}

/// Puts <DIRECTORY>.
#[tactic(auto, using(cm_io::proofs::Texts::texts), unfolding(crate::specs::Replies::directory_text))]
pub fn put_directory<S: Sink>(directory: &str, out: &mut Writer<'_, S>)
    ensures { Writes S.Sink out.old out.new (directory_text directory.now) }
{
    out.put(left_angle());
    out.put(directory.as_bytes());
    out.put(right_angle());
}

/// Puts <DIRECTORY>NAME.TYPE.GENERATION of a file.
#[tactic(auto, using(cm_io::proofs::Texts::texts), unfolding(crate::specs::Replies::full_text))]
pub fn put_full<S: Sink>(full: Full<'_>, out: &mut Writer<'_, S>)
    ensures { Writes S.Sink out.old out.new (full_text (full_name full.entry)) }
{
    put_directory(full.directory, out);
    put_file(full, out);
}
