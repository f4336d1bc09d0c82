// The commands.
use cm_text::Name;
use ex_store::Place;

/// What a confirmed line commands. After a line that ends in a comma, subcommands follow (`sub`).
#[derive(Debug, Drop)]
pub enum Command {
    /// Nothing: the line has no field.
    Empty,
    /// APPEND: to put the bytes of files after those of one file.
    Append {
        from: Place,
        to: Place,
    },
    /// BUILD: to make a directory, which keeps so many generations of each file: one where none is said and it is new,
    /// all with 0, and at most 63.
    Build {
        directory: Name,
        retention: Option<u8>,
        sub: bool,
    },
    /// CONNECT: to connect to a directory.
    Connect {
        directory: Name,
    },
    /// COPY: to copy files.
    Copy {
        from: Place,
        to: Place,
    },
    /// COPY TTY:, to type a file in.
    CopyTty {
        to: Place,
    },
    /// DEFINE: to let a logical name stand for a directory, or to take it away where none is said.
    Define {
        name: Name,
        directory: Option<Name>,
    },
    /// DELETE: to mark files as deleted.
    Delete {
        files: Place,
    },
    /// DIRECTORY: to list files, those that are marked deleted or those that are not, and only those that were written
    /// on the day `since` or later, and earlier than on the day `before`; with the day when each was last read where
    /// `read` says so, and else with that when it was written. A day is its number, 0 for 1-JAN-1970.
    Directory {
        files: Place,
        since: Option<i32>,
        before: Option<i32>,
        deleted: bool,
        read: bool,
        sub: bool,
    },
    /// EXPUNGE: to remove the files of a directory that are marked as deleted; of the connected one where none is said.
    Expunge {
        directory: Option<Name>,
    },
    /// INFORMATION: to tell about the topic with this code.
    Information {
        what: u16,
    },
    /// LOGOUT, or KJOB: to end the run.
    Logout,
    /// PRINT: to queue files for printing: so many copies, on the form with this number, not before a day, as a job of
    /// this name, or of each file's own, and with this note.
    Print {
        files: Place,
        copies: u64,
        form: u8,
        after: Option<i32>,
        job: Option<Name>,
        note: Name,
    },
    /// REMARK: nothing.
    Remark,
    /// RENAME: to give files other names.
    Rename {
        from: Place,
        to: Place,
    },
    /// SET FILE GENERATION-RETENTION-COUNT: to tell how many generations files keep: all with 0, and at most 63.
    Set {
        files: Place,
        keep: u8,
    },
    /// TAKE: to take the lines of a file as commands.
    Take {
        file: Place,
    },
    /// TYPE: to show what files hold, which are read by that.
    TypeOut {
        files: Place,
    },
    /// UNDELETE: to take the mark of files away.
    Undelete {
        files: Place,
    },
}
