// Scripts: lines that are done one after the other on a store that has nothing yet.
use crate::bytes::{are_bytes, bytes_of, cut, number, word};
use crate::keys::press;
use crate::places::{has, may_act, takes};
use cm_fields::Gen;
use cm_files::Flags;
use cm_io::MemSink;
use cm_text::{NAME_LIMIT, Name};
use ex_commands::{Acted, Command, Data, act, file_bytes, write_data};
use ex_generations::Bytes;
use ex_store::{Parts, Place, Plan, RETENTION_LIMIT, RowView, Store};
use std::alloc::{AllocError, Global};
use std::process::Abort;

// Files that are marked as deleted.
const MARKED: Flags = Flags {
    wild: true,
    all_generations: false,
    deleted: true,
    default_all: false,
    from_source: false,
    new: false,
};

// A name, or none at all where it is too long for one.
fn name(text: &str) -> Name {
    if text.len() <= NAME_LIMIT {
        Name::new(text)
    } else {
        Name::new("")
    }
}

fn generation(text: &str) -> Gen {
    match text.parse::<u32>() {
        Ok(number) => Gen::Number(number),
        Err(_) => Gen::Missing,
    }
}

// What is before and after a point.
fn parts(text: &str) -> (&str, &str) {
    text.split_once('.').unwrap_or((text, ""))
}

// A file: NAME.TYPE or NAME.TYPE.GENERATION, after - where it is marked as deleted, and then after <SMITH> where it
// is not of OPERATOR.
fn place(text: &str) -> Place {
    let (flags, text) = match text.strip_prefix('-') {
        Some(rest) => (MARKED, rest),
        None => (Flags::default(), text),
    };
    let (directory, text) = match text.strip_prefix("<SMITH>") {
        Some(rest) => ("SMITH", rest),
        None => ("OPERATOR", text),
    };
    let (name_part, rest) = parts(text);
    let (kind, number) = parts(rest);
    Place {
        directory: Name::new(directory),
        name: Some(name(name_part)),
        kind: Some(name(kind)),
        generation: generation(number),
        flags,
    }
}

fn name_or_none(text: &str) -> Option<Name> {
    if text.is_empty() {
        None
    } else {
        Some(name(text))
    }
}

// The day after a sign, as a number, where it is in the text.
fn day(text: &str, sign: &str) -> Option<i32> {
    let (_, rest) = text.split_once(sign)?;
    word(rest).0.parse().ok()
}

// PRINT of files, after which stand the copies, the form and the note, each after a space.
fn print(files: &str, text: &str) -> Command {
    let (copies, text) = word(text);
    let (form, note) = word(text);
    Command::Print {
        files: place(files),
        copies: number(copies),
        form: u8::try_from(number(form)).unwrap_or(0),
        after: day(text, "AFTER="),
        job: None,
        note: name(note),
    }
}

// A command: its verb, and the files or the name that it is for. After the files of DIRECTORY stand the days, as
// SINCE=1 BEFORE=2, and DELETED, READ and a comma; after those of SET how many generations are kept.
fn command(text: &str) -> Command {
    let (verb, rest) = word(text);
    let (first, second) = word(rest);
    match verb {
        "APPEND" => Command::Append {
            from: place(first),
            to: place(second),
        },
        "CONNECT" => Command::Connect {
            directory: name(first),
        },
        "COPY" => Command::Copy {
            from: place(first),
            to: place(second),
        },
        "COPYTTY" => Command::CopyTty { to: place(first) },
        "DEFINE" => Command::Define {
            name: name(first),
            directory: name_or_none(second),
        },
        "DELETE" => Command::Delete {
            files: place(first),
        },
        "DIRECTORY" => Command::Directory {
            files: place(first),
            since: day(second, "SINCE="),
            before: day(second, "BEFORE="),
            deleted: second.contains("DELETED"),
            read: second.contains("READ"),
            sub: second.contains(','),
        },
        "EXPUNGE" => Command::Expunge {
            directory: name_or_none(first),
        },
        "INFORMATION" => Command::Information {
            what: u16::try_from(number(first)).unwrap_or(0),
        },
        "LOGOUT" => Command::Logout,
        "PRINT" => print(first, second),
        "REMARK" => Command::Remark,
        "RENAME" => Command::Rename {
            from: place(first),
            to: place(second),
        },
        "SET" => Command::Set {
            files: place(first),
            keep: u8::try_from(number(second)).unwrap_or(0),
        },
        "TAKE" => Command::Take { file: place(first) },
        "TYPE" => Command::TypeOut {
            files: place(first),
        },
        "UNDELETE" => Command::Undelete {
            files: place(first),
        },
        _ => Command::Empty,
    }
}

// The answer has this name, and is shown so.
fn is_answered(rt: &(impl Abort + AllocGlobal), answer: Acted, sink: &MemSink, wanted: &str) {
    let (name, shown) = cut(wanted);
    let said = format!(in rt.alloc(); "{answer:?}").expect(rt, "memory");
    assert_eq!(rt; said.as_str(), name, "{shown}");
    are_bytes(rt, sink.bytes(), shown);
}

// Does a command at a moment, on a screen with room for so many bytes.
fn does(
    rt: &(impl Abort + AllocGlobal),
    store: &mut Store,
    command: &Command,
    moment: u64,
    room: u32,
    wanted: &str,
) {
    assert!(rt; may_act(store, command), "the command cannot be done");
    let mut sink = MemSink::new(rt.alloc(), room).expect(rt, "memory");
    let answer = act(store, command, moment, &mut sink);
    is_answered(rt, answer, &sink, wanted);
}

// BUILD SMITH, after which stand how many generations are kept, and a comma.
#[tactic(auto, unfolding(cm_text::specs::Bytes::is_name, cm_text::specs::Bytes::is_word))]
fn build(rt: &(impl Abort + AllocGlobal), store: &mut Store, text: &str, wanted: &str) {
    let (_, text) = word(text);
    let retention = text.parse::<u8>().ok();
    assert!(rt;
        retention.is_none_or(|count| count <= RETENTION_LIMIT),
        "too many generations"
    );
    let command = Command::Build {
        directory: Name::new("SMITH"),
        retention,
        sub: text.contains(','),
    };
    let mut sink = MemSink::new(rt.alloc(), 1_000).expect(rt, "memory");
    let answer = act(store, &command, 0, &mut sink);
    is_answered(rt, answer, &sink, wanted);
}

// Types a file in: the place, and the keys.
fn type_in(
    rt: &(impl Abort + AllocGlobal),
    store: &mut Store,
    text: &str,
    moment: u64,
    wanted: &str,
) {
    let (to, keys) = word(text);
    let to = place(to);
    let mut typed = Data::new(rt.alloc()).expect(rt, "memory");
    let mut sink = MemSink::new(rt.alloc(), 1_000).expect(rt, "memory");
    let keys = bytes_of(rt.alloc(), keys).expect(rt, "memory");
    press(&mut typed, &keys, &mut sink);
    sink = MemSink::new(rt.alloc(), 1_000).expect(rt, "memory");
    assert!(rt; takes(store, &to), "no file can have this name");
    let answer = write_data(store, &to, typed, moment, &mut sink);
    is_answered(rt, answer, &sink, wanted);
}

// The bytes of a file: as they stand, or X and after an asterisk how many of it.
fn contents(alloc: Global, text: &str) -> Result<Vec<u8>, AllocError> {
    match text.split_once('*') {
        Some((_, size)) => vec![in alloc; b'X'; number(size) as usize],
        None => bytes_of(alloc, text),
    }
}

// Puts a file into a store: the place, and the bytes.
fn write(rt: &(impl Abort + AllocGlobal), store: &mut Store, text: &str, moment: u64) {
    let (to, text) = word(text);
    let to = place(to);
    assert!(rt; takes(store, &to), "no file can have this name");
    let bytes = Bytes::new(contents(rt.alloc(), text).expect(rt, "memory"));
    match store.prepare(Plan::Write { to, bytes }, moment) {
        Ok(ready) => store.apply(ready),
        Err(_) => assert!(rt; false, "the file is refused"),
    }
}

// A file's name, with a minus where it is marked as deleted.
fn put_row(list: &mut String, row: RowView<'_>) -> Result<(), AllocError> {
    let directory = row.directory.as_str();
    let name = row.name.as_str();
    let kind = row.kind.as_str();
    let generation = row.file.generation;
    let mark = if row.file.deleted { "-" } else { "" };
    write!(list, "<{directory}>{name}.{kind}.{generation}{mark}")
}

fn names(alloc: Global, parts: &Parts<'_>) -> Result<String, AllocError> {
    let mut list = String::new(alloc);
    for i in 0..parts.rows() {
        put_row(&mut list, parts.row(i))?;
    }
    Ok(list)
}

// These are the files of a store.
fn has_files(rt: &(impl Abort + AllocGlobal), store: &Store, wanted: &str) {
    let found = names(rt.alloc(), &store.parts()).expect(rt, "memory");
    assert_eq!(rt; found.as_str(), wanted);
}

// A file's name, how many generations it keeps, and when it was last read, or a minus.
fn put_stamps(list: &mut String, row: RowView<'_>) -> Result<(), AllocError> {
    put_row(list, row)?;
    write!(list, " {} ", row.file.keep)?;
    match row.file.read {
        Some(moment) => write!(list, "{moment}"),
        None => list.push('-'),
    }
}

fn stamps(alloc: Global, parts: &Parts<'_>) -> Result<String, AllocError> {
    let mut list = String::new(alloc);
    for i in 0..parts.rows() {
        put_stamps(&mut list, parts.row(i))?;
    }
    Ok(list)
}

// The files of a store keep so many generations, and were read then.
fn has_stamps(rt: &(impl Abort + AllocGlobal), store: &Store, wanted: &str) {
    let found = stamps(rt.alloc(), &store.parts()).expect(rt, "memory");
    assert_eq!(rt; found.as_str(), wanted);
}

// The first file of a store: its moment and its bytes.
fn holds(rt: &(impl Abort + AllocGlobal), store: &Store, wanted: &str) {
    let (moment, bytes) = word(wanted);
    let parts = store.parts();
    assert!(rt; parts.rows() > 0, "there is no file");
    let row = parts.row(0);
    assert_eq!(rt; row.file.moment, number(moment));
    are_bytes(rt, row.file.bytes.as_slice(), bytes);
}

// What TAKE reads of a place.
fn reads(rt: &(impl Abort + AllocGlobal), store: &Store, text: &str, wanted: &str) {
    let file = place(text);
    assert!(rt; has(store, &file.directory), "the directory is not there");
    are_bytes(rt, file_bytes(store, &file), wanted);
}

// The connected directory, and how many directories there are.
fn is_connected(rt: &(impl Abort + AllocGlobal), store: &Store, wanted: &str) {
    let parts = store.parts();
    let connected = parts.connected().as_str();
    let count = parts.directories();
    let found = format!(in rt.alloc(); "{connected} {count}").expect(rt, "memory");
    assert_eq!(rt; found.as_str(), wanted);
}

// The number before a sign, and what is after it; where the sign is not there, the usual number.
fn number_before<'a>(text: &'a str, sign: char, usual: u64) -> (u64, &'a str) {
    match text.split_once(sign) {
        Some((digits, rest)) => (number(digits), rest),
        None => (usual, text),
    }
}

// Does one line. It begins with the moment where that is not 0, as 86400:, and with the room of the screen where that
// is scarce, as 13#. What is wanted is after a bar: the answer, and after another bar what is shown.
fn do_line(rt: &(impl Abort + AllocGlobal), store: &mut Store, line: &str) {
    let (line, wanted) = cut(line);
    let (moment, line) = number_before(line, ':', 0);
    let (room, line) = number_before(line, '#', 1_000);
    let (verb, rest) = word(line);
    match verb {
        "WRITE" => write(rt, store, rest, moment),
        "BUILD" => build(rt, store, rest, wanted),
        "TYPE-IN" => type_in(rt, store, rest, moment, wanted),
        "FILES" => has_files(rt, store, wanted),
        "STAMPS" => has_stamps(rt, store, wanted),
        "HOLDS" => holds(rt, store, wanted),
        "READS" => reads(rt, store, rest, wanted),
        "CONNECTED" => is_connected(rt, store, wanted),
        _ => does(
            rt,
            store,
            &command(line),
            moment,
            u32::try_from(room).unwrap_or(0),
            wanted,
        ),
    }
}

/// The store after a script.
pub(crate) fn run(rt: &(impl Abort + AllocGlobal), script: &str) -> Store {
    let mut store = Store::new(rt.alloc()).expect(rt, "memory");
    for line in script.lines() {
        do_line(rt, &mut store, line.trim_start());
    }
    store
}
