// The print queue.
ghost use Rattle.std.specs.Prelude.{◌≡◌, ◌<◌, ◌≤◌, length};
ghost use Rattle.cm_text.specs.declared.name.TheConstants.{NAME_LIMIT};
ghost use Rattle.ex_store.specs.declared.limits.TheConstants.{FORMS};
ghost use Rattle.ex_store.specs.Forms.{form_text};
ghost use Rattle.ex_store.specs.Views.{queue_entry};

use crate::{FullName, Key};
use cm_text::Name;

/// An entry of the print queue.
#[derive(Debug, Drop)]
pub struct QueueEntry {
    /// The file that is to be printed. It may be gone by now.
    pub file: FullName,
    /// How many copies, 1 to 63.
    pub copies: u8,
    /// The number of the form, below 3.
    pub form: u8,
    /// The day before which it is not to be printed, 0 for 1-JAN-1970.
    pub after: Option<i32>,
    /// The name of the job.
    pub job: Name,
    /// What is to be beside it; may be empty.
    pub note: Name,
}

/// An entry of the print queue as a store tells it.
#[derive(Clone, Copy, Debug)]
pub struct Queued<'a> {
    /// The directory of the file.
    pub directory: &'a str,
    /// The name of the file.
    pub name: &'a str,
    /// The type of the file.
    pub kind: &'a str,
    /// The generation of the file.
    pub generation: u32,
    /// How many copies, 1 to 63.
    pub copies: u8,
    /// The number of the form, below 3.
    pub form: u8,
    /// The day before which it is not to be printed, 0 for 1-JAN-1970.
    pub after: Option<i32>,
    /// The name of the job.
    pub job: &'a str,
    /// What is to be beside it; may be empty.
    pub note: &'a str,
}

impl QueueEntry {
    // The same, as texts that are lent.
    pub(crate) fn lent(&self) -> Queued<'_>
        ensures { queue_entry result ≡ self.now }
    {
        Queued {
            directory: self.file.key.directory.as_str(),
            name: self.file.key.name.as_str(),
            kind: self.file.key.kind.as_str(),
            generation: self.file.generation,
            copies: self.copies,
            form: self.form,
            after: self.after,
            job: self.job.as_str(),
            note: self.note.as_str(),
        }
    }
}

impl Queued<'_> {
    // The same as an entry of its own.
    pub(crate) fn owned(&self) -> QueueEntry
        requires directory { length self.now.directory.now ≤ NAME_LIMIT }
        requires name { length self.now.name.now ≤ NAME_LIMIT }
        requires kind { length self.now.kind.now ≤ NAME_LIMIT }
        requires job { length self.now.job.now ≤ NAME_LIMIT }
        requires note { length self.now.note.now ≤ NAME_LIMIT }
        ensures { result ≡ queue_entry self.now }
    {
        QueueEntry {
            file: FullName {
                key: Key {
                    directory: Name::new(self.directory),
                    name: Name::new(self.name),
                    kind: Name::new(self.kind),
                },
                generation: self.generation,
            },
            copies: self.copies,
            form: self.form,
            after: self.after,
            job: Name::new(self.job),
            note: Name::new(self.note),
        }
    }
}

/// The name of a form to print on.
pub fn form_text(form: u8) -> &'static str
    requires { form < FORMS }
    ensures { result.now ≡ form_text form }
{
    match form {
        0 => "NARROW",
        1 => "NORMAL",
        _ => "WIDE",
    }
}
