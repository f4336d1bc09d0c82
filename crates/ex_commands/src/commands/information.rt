// INFORMATION.
#![tactic(auto, using(cm_io::proofs::Texts::each))]

ghost use Rattle.std.specs.Prelude.{true, false, ◌≡◌};
ghost use Rattle.std.specs.List.{flat_map, list_all};
ghost use Rattle.cm_blocks.specs.declared.function.Role.TheVariants as roles;
ghost use Rattle.cm_io.specs.Writer.{Writes};
ghost use Rattle.cm_state.specs.Roles.{field_of};
ghost use Rattle.ex_store.specs.Views.{definition_of_view, full_name};
ghost use Rattle.ex_store.specs.WellFormed.{is_day};
ghost use Rattle.ex_commands.specs.declared.command.Command.TheVariants as commands;
ghost use Rattle.ex_commands.specs.Commands.Information.{after_text, definition_line, directory_line, directory_lines, entry_line, is_shown, note_text, pages_line, quoted_byte, retention_line, tells, topic_text, version_line, wishes_text};
ghost use Rattle.ex_commands.specs.Line.{code_in};
ghost use Rattle.ex_commands.specs.Outcome.{Outcome};

use crate::fields::code_in;
use crate::names::{put_directory, put_full};
use crate::texts::{
    after_mark, copies_mark, forms_mark, job_mark, kept, note_mark, of_structure, pages_had, quote,
    space, stands_for, version,
};
use crate::{Acted, Command};
use cm_blocks::Role;
use cm_dates::day_text;
use cm_io::{Sink, Writer};
use cm_state::Session;
use cm_text::end_of_line;
use ex_grammar::{DIRECTORY_TOPIC, LOGICAL_NAMES, OUTPUT_REQUESTS, VERSION};
use ex_store::{DefinitionView, Full, FullName, Parts, QueueEntry, Store, form_text};

/// What a line of INFORMATION commands.
pub(crate) fn read(session: &Session) -> Command
    ensures { result ≡ commands.Information (code_in (field_of roles.What session.now.fields)) }
{
    Command::Information {
        what: code_in(session.field_of(Role::What)),
    }
}

// Puts a directory.
#[tactic(auto, using(cm_io::proofs::Texts::texts), unfolding(crate::specs::Commands::Information::directory_line))]
fn put_connected<S: Sink>(directory: &str, out: &mut Writer<'_, S>)
    ensures { Writes S.Sink out.old out.new (directory_line directory.now) }
{
    out.put(of_structure());
    put_directory(directory, out);
    out.put(end_of_line());
}

// Puts how many generations are kept.
#[tactic(auto, using(cm_io::proofs::Texts::texts), unfolding(crate::specs::Commands::Information::retention_line))]
fn put_retention<S: Sink>(count: u8, out: &mut Writer<'_, S>)
    ensures { Writes S.Sink out.old out.new (retention_line count) }
{
    out.put(kept());
    out.put_decimal(u64::from(count));
    out.put(end_of_line());
}

// Puts how many pages there are.
#[tactic(auto, using(cm_io::proofs::Texts::texts), unfolding(crate::specs::Commands::Information::pages_line))]
fn put_pages<S: Sink>(pages: u32, out: &mut Writer<'_, S>)
    ensures { Writes S.Sink out.old out.new (pages_line pages) }
{
    out.put(pages_had());
    out.put_decimal(u64::from(pages));
    out.put(end_of_line());
}

// Tells about the connected directory.
#[tactic(auto, using(cm_io::proofs::Texts::texts), unfolding(crate::specs::Commands::Information::directory_lines))]
fn put_directory_lines<S: Sink>(store: &Store, out: &mut Writer<'_, S>)
    ensures { Writes S.Sink out.old out.new (directory_lines store.now.state) }
{
    let parts = store.parts();
    let name = parts.connected().as_str();
    put_connected(name, out);
    put_retention(store.retention_in(name), out);
    put_pages(store.pages_in(name), out);
}

// Puts a logical name, and the directory that it stands for.
#[tactic(auto, using(cm_io::proofs::Texts::texts), unfolding(crate::specs::Commands::Information::definition_line))]
fn put_definition<S: Sink>(it: DefinitionView<'_>, out: &mut Writer<'_, S>)
    ensures { Writes S.Sink out.old out.new (definition_line (definition_of_view it.entry)) }
{
    out.put(space());
    out.put(it.name.as_bytes());
    out.put(stands_for());
    put_directory(it.directory.as_str(), out);
    out.put(end_of_line());
}

// Tells about the logical names.
#[tactic(auto, using(cm_io::proofs::Texts::turns))]
fn put_definitions<S: Sink>(parts: &Parts<'_>, out: &mut Writer<'_, S>)
    ensures { Writes S.Sink out.old out.new (flat_map definition_line parts.now.logical) }
{
    for i in 0..parts.logicals() {
        put_definition(parts.logical(i), out);
    }
}

// Puts the day before which a file is not printed, where there is one.
#[tactic(auto, using(cm_io::proofs::Texts::texts, cm_io::proofs::Texts::each), unfolding(crate::specs::Commands::Information::after_text))]
fn put_after<S: Sink>(after: Option<i32>, out: &mut Writer<'_, S>)
    requires { is_day after ≡ true }
    ensures { Writes S.Sink out.old out.new (after_text after) }
{
    if let Some(day) = after {
        out.put(after_mark());
        out.put(day_text(day).as_str().as_bytes());
    }
}

// Puts a byte, a quote twice.
#[tactic(auto, using(cm_io::proofs::Texts::each), unfolding(crate::specs::Commands::Information::quoted_byte))]
fn put_quoted_byte<S: Sink>(byte: u8, out: &mut Writer<'_, S>)
    ensures { Writes S.Sink out.old out.new (quoted_byte byte) }
{
    if byte == b'"' {
        out.put(b"\"\"");
    } else {
        out.put(&[byte]);
    }
}

// Puts each byte, a quote twice.
fn put_quoted<S: Sink>(note: &[u8], out: &mut Writer<'_, S>)
    ensures { Writes S.Sink out.old out.new (flat_map quoted_byte note.now) }
{
    for byte in note {
        put_quoted_byte(*byte, out);
    }
}

// Puts a note, where there is one.
#[tactic(auto, using(cm_io::proofs::Texts::texts, cm_io::proofs::Texts::each), unfolding(crate::specs::Commands::Information::note_text))]
fn put_note<S: Sink>(note: &[u8], out: &mut Writer<'_, S>)
    ensures { Writes S.Sink out.old out.new (note_text note.now) }
{
    if !note.is_empty() {
        out.put(note_mark());
        put_quoted(note, out);
        out.put(quote());
    }
}

// Puts what is asked for with a file.
#[tactic(auto, using(cm_io::proofs::Texts::texts), unfolding(crate::specs::Commands::Information::wishes_text))]
fn put_wishes<S: Sink>(entry: &QueueEntry, out: &mut Writer<'_, S>)
    requires { is_shown entry.now ≡ true }
    ensures { Writes S.Sink out.old out.new (wishes_text entry.now) }
{
    out.put(copies_mark());
    out.put_decimal(u64::from(entry.copies));
    out.put(forms_mark());
    out.put(form_text(entry.form).as_bytes());
    out.put(job_mark());
    out.put(entry.job.as_bytes());
    put_after(entry.after, out);
    put_note(entry.note.as_bytes(), out);
}

// The full name of a file.
fn full_of(file: &FullName) -> Full<'_>
    ensures { full_name result ≡ file.now }
{
    Full {
        directory: file.key.directory.as_str(),
        name: file.key.name.as_str(),
        kind: file.key.kind.as_str(),
        generation: file.generation,
    }
}

// Puts an entry of the print queue.
#[tactic(auto, using(cm_io::proofs::Texts::texts), unfolding(crate::specs::Commands::Information::entry_line))]
fn put_entry<S: Sink>(entry: &QueueEntry, out: &mut Writer<'_, S>)
    requires { is_shown entry.now ≡ true }
    ensures { Writes S.Sink out.old out.new (entry_line entry.now) }
{
    out.put(space());
    put_full(full_of(&entry.file), out);
    put_wishes(entry, out);
    out.put(end_of_line());
}

// Tells about the print queue.
fn put_entries<S: Sink>(entries: &[QueueEntry], out: &mut Writer<'_, S>)
    requires { list_all is_shown entries.now ≡ true }
    ensures { Writes S.Sink out.old out.new (flat_map entry_line entries.now) }
{
    for entry in entries {
        put_entry(entry, out);
    }
}

// Tells about the version.
#[tactic(auto, using(cm_io::proofs::Texts::texts), unfolding(crate::specs::Commands::Information::version_line))]
fn put_version<S: Sink>(out: &mut Writer<'_, S>)
    ensures { Writes S.Sink out.old out.new version_line }
{
    out.put_line(version());
}

// Puts what is told about a topic.
fn put_topic_text<S: Sink>(store: &Store, what: u16, out: &mut Writer<'_, S>)
    ensures { Writes S.Sink out.old out.new (topic_text what store.now.state) }
{
    match what {
        DIRECTORY_TOPIC => put_directory_lines(store, out),
        LOGICAL_NAMES => put_definitions(&store.parts(), out),
        OUTPUT_REQUESTS => put_entries(store.parts().queue(), out),
        VERSION => put_version(out),
        _ => {}
    }
}

/// Tells about a topic.
pub(crate) fn act<S: Sink>(store: &Store, what: u16, out: &mut Writer<'_, S>) -> Acted
    ensures { Outcome S.Sink out.old out.new (tells what store.now.state) false store.now.state store.now.state result }
{
    put_topic_text(store, what, out);
    Acted::Ok
}
