// The lines of the records.
ghost use Rattle.std.specs.Prelude.{◌≡◌, ◌+◌, ◌*◌, ◌<◌, ◌≤◌, [], ◌∷◌, ◌++◌, codes, length};
ghost use Rattle.std.specs.Fmt.{decimal};
ghost use Rattle.ex_store.specs.declared.limits.TheConstants.{FORMS};
ghost use Rattle.ex_store.specs.Forms.{form_text};
ghost use Rattle.ex_store.specs.Views.{definition_of_view, directory_of_view, row_of_view};
ghost use Rattle.ex_store.specs.Rows.{full_of};
ghost use Rattle.ex_image.specs.declared.line.TheConstants.{FIELD_LIMIT};
ghost use Rattle.ex_image.specs.declared.version.Version.TheVariants as versions;
ghost use Rattle.ex_image.specs.Image.{directory_record, file_record, logical_record, request_record};
ghost use Rattle.ex_image.specs.Record.{fields, file_text, line_text, mark_text};
ghost use Rattle.ex_image.specs.Record as records;

use crate::line::Line;
use cm_text::Name;
use ex_store::{DefinitionView, DirectoryView, QueueEntry, RowView, form_text};

/// The line of a directory.
pub(crate) fn directory_line(directory: DirectoryView<'_>) -> Line
    ensures { result ≡ line_text (directory_record (directory_of_view directory.entry)).0 ++ 10 ∷ [] }
{
    let mut line = Line::new("D");
    line.field(directory.name.as_str());
    line.number(u64::from(directory.retention));
    line.end();
    line
}

/// The line of the connected directory.
pub(crate) fn connected_line(name: &Name) -> Line
    ensures { result ≡ line_text (records.Connected name.now) ++ 10 ∷ [] }
{
    let mut line = Line::new("C");
    line.field(name.as_str());
    line.end();
    line
}

/// The line of a logical name.
pub(crate) fn logical_line(entry: DefinitionView<'_>) -> Line
    ensures { result ≡ line_text (logical_record (definition_of_view entry.entry)).0 ++ 10 ∷ [] }
{
    let mut line = Line::new("L");
    line.field(entry.name.as_str());
    line.field(entry.directory.as_str());
    line.end();
    line
}

fn mark_text(deleted: bool) -> &'static str
    ensures { result.now ≡ mark_text deleted }
{
    if deleted { "D" } else { "U" }
}

// The line of a file as far as its mark.
fn marked_line(row: RowView<'_>) -> Line
    ensures bytes { let it = row_of_view row.entry in
        result ≡ fields (codes "F" ∷ it.key.directory ∷ file_text (full_of it) ∷ mark_text it.file.deleted ∷ []) }
    ensures len { length result ≤ 5 * FIELD_LIMIT + 1 }
{
    let mut line = Line::new("F");
    line.field(row.directory.as_str());
    line.file(row.name, row.kind, row.file.generation);
    line.field(mark_text(row.file.deleted));
    line
}

/// The line of a file.
pub(crate) fn file_line(row: RowView<'_>) -> Line
    ensures { result ≡ line_text (file_record versions.Two (row_of_view row.entry)).0 ++ 10 ∷ [] }
{
    let mut line = marked_line(row);
    line.number(u64::from(row.file.keep));
    line.number(row.file.moment);
    line.optional(row.file.read);
    line.number(row.file.bytes.len() as u64);
    line.end();
    line
}

// The line of an entry of the print queue as far as its form.
fn printed_line(entry: &QueueEntry) -> Line
    requires { entry.now.form < FORMS }
    ensures bytes { result ≡ fields (codes "Q" ∷ entry.now.file.key.directory ∷ file_text entry.now.file
        ∷ decimal entry.now.copies ∷ form_text entry.now.form ∷ []) }
    ensures len { length result ≤ 6 * FIELD_LIMIT + 1 }
{
    let mut line = Line::new("Q");
    line.field(entry.file.key.directory.as_str());
    line.file(
        &entry.file.key.name,
        &entry.file.key.kind,
        entry.file.generation,
    );
    line.number(u64::from(entry.copies));
    line.field(form_text(entry.form));
    line
}

/// The line of an entry of the print queue.
pub(crate) fn request_line(entry: &QueueEntry) -> Line
    requires { entry.now.form < FORMS }
    ensures { result ≡ line_text (request_record entry.now).0 ++ 10 ∷ [] }
{
    let mut line = printed_line(entry);
    line.after(entry.after);
    line.field(entry.job.as_str());
    line.field(entry.note.as_str());
    line.end();
    line
}
