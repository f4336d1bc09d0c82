// The banner of a copy, and the page of a file that is not there.
#![tactic(auto, using(cm_io::proofs::Texts::texts))]

ghost use Rattle.std.specs.Prelude.{◌≡◌, ◌<◌, ◌++◌};
ghost use Rattle.std.specs.Fmt.{decimal};
ghost use Rattle.cm_io.specs.Writer.{Writes};
ghost use Rattle.ex_store.specs.Forms.{form_text};
ghost use Rattle.ex_store.specs.declared.limits.TheConstants.{FORMS};
ghost use Rattle.ex_spool.specs.Pages.{form_feed, page_text, row_text};
ghost use Rattle.ex_spool.specs.Spool.{absent_text, banner, full_text, note_text};
ghost use Rattle.ex_spool.specs.Texts.{before_copies, before_copy, before_file, before_form, before_job, not_there};

use crate::row::form_feed;
use crate::texts::{
    before_copies, before_copy, before_file, before_form, before_job, before_note, dot, left_angle,
    not_there, right_angle,
};
use cm_io::{Sink, Writer};
use cm_text::end_of_line;
use ex_store::{FullName, QueueEntry, form_text};

// Puts <DIRECTORY>NAME.TYPE.GENERATION.
#[tactic(auto, using(cm_io::proofs::Texts::texts), unfolding(crate::specs::Spool::full_text))]
fn put_full<S: Sink>(file: &FullName, out: &mut Writer<'_, S>)
    ensures { Writes S.Sink out.old out.new (full_text file.now) }
{
    out.put(left_angle());
    out.put(file.key.directory.as_bytes());
    out.put(right_angle());
    out.put(file.key.name.as_bytes());
    out.put(dot());
    out.put(file.key.kind.as_bytes());
    out.put(dot());
    out.put_decimal(u64::from(file.generation));
}

// Puts a row of two texts.
#[tactic(auto, using(cm_io::proofs::Texts::texts), unfolding(crate::specs::Pages::row_text))]
fn put_row<S: Sink>(word: &[u8], text: &[u8], out: &mut Writer<'_, S>)
    ensures { Writes S.Sink out.old out.new (row_text (word.now ++ text.now)) }
{
    out.put(word);
    out.put(text);
    out.put(end_of_line());
}

// Puts the row of the file.
#[tactic(auto, using(cm_io::proofs::Texts::texts), unfolding(crate::specs::Pages::row_text))]
fn put_file_row<S: Sink>(file: &FullName, out: &mut Writer<'_, S>)
    ensures { Writes S.Sink out.old out.new (row_text (before_file ++ full_text file.now)) }
{
    out.put(before_file());
    put_full(file, out);
    out.put(end_of_line());
}

// Puts the row of a copy.
#[tactic(auto, using(cm_io::proofs::Texts::texts), unfolding(crate::specs::Pages::row_text))]
fn put_copy_row<S: Sink>(copy: u8, copies: u8, out: &mut Writer<'_, S>)
    ensures { Writes S.Sink out.old out.new
        (row_text (before_copy ++ decimal copy ++ before_copies ++ decimal copies)) }
{
    out.put(before_copy());
    out.put_decimal(u64::from(copy));
    out.put(before_copies());
    out.put_decimal(u64::from(copies));
    out.put(end_of_line());
}

// Puts the row of a note, where there is one.
fn put_note<S: Sink>(note: &[u8], out: &mut Writer<'_, S>)
    ensures { Writes S.Sink out.old out.new (note_text note.now) }
{
    if note.is_empty() {
        return;
    }
    put_row(before_note(), note, out);
}

// Puts the rows of a banner, and ends the page.
fn put_rows<S: Sink>(entry: &QueueEntry, copy: u8, out: &mut Writer<'_, S>)
    requires { entry.now.form < FORMS }
    ensures { Writes S.Sink out.old out.new
        (row_text (before_job ++ entry.now.job) ++ row_text (before_file ++ full_text entry.now.file)
        ++ row_text (before_form ++ form_text entry.now.form)
        ++ row_text (before_copy ++ decimal copy ++ before_copies ++ decimal entry.now.copies)
        ++ note_text entry.now.note ++ form_feed) }
{
    put_row(before_job(), entry.job.as_bytes(), out);
    put_file_row(&entry.file, out);
    put_row(before_form(), form_text(entry.form).as_bytes(), out);
    put_copy_row(copy, entry.copies, out);
    put_note(entry.note.as_bytes(), out);
    out.put(form_feed());
}

/// Puts the banner page of a copy.
pub(crate) fn put_banner<S: Sink>(entry: &QueueEntry, copy: u8, out: &mut Writer<'_, S>)
    requires { entry.now.form < FORMS }
    ensures { Writes S.Sink out.old out.new (page_text (banner entry.now copy)) }
{
    put_rows(entry, copy, out);
}

// Puts the row of a file that is not there, and ends the page.
#[tactic(auto, using(cm_io::proofs::Texts::texts), unfolding(crate::specs::Pages::row_text))]
fn put_absent_row<S: Sink>(file: &FullName, out: &mut Writer<'_, S>)
    ensures { Writes S.Sink out.old out.new (row_text (before_file ++ full_text file.now ++ not_there) ++ form_feed) }
{
    out.put(before_file());
    put_full(file, out);
    out.put(not_there());
    out.put(end_of_line());
    out.put(form_feed());
}

/// Puts the page of an entry whose file is not there.
pub(crate) fn put_absent<S: Sink>(entry: &QueueEntry, out: &mut Writer<'_, S>)
    ensures { Writes S.Sink out.old out.new (absent_text entry.now) }
{
    put_absent_row(&entry.file, out);
}
