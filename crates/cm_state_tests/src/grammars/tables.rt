// Tables: one entry a line, and an empty line before each further table.
use super::functions::{name, some_name};
use cm_tables::{Entry, Flag, Table};
use std::alloc::Global;
use std::test::Fail;

pub(crate) fn tables(alloc: Global, text: &str) -> Result<Vec<Table>, Fail> {
    let mut tables = Vec::new(alloc);
    for part in text.split("\n\n") {
        tables.push(table(alloc, part)?)?;
    }
    Ok(tables)
}

fn table(alloc: Global, text: &str) -> Result<Table, Fail> {
    let mut entries = Vec::new(alloc);
    for line in text.lines() {
        entries.push(entry(line).ok_or("an entry")?)?;
    }
    Ok(Table::new(entries)?)
}

// An entry: its text, a colon where a value follows it, its code, the node that follows it, and its flag, and after
// ` ? ` its help.
fn entry(line: &str) -> Option<Entry> {
    let (line, help) = line.split_once(" ? ").unwrap_or((line, ""));
    let (text, rest) = line.split_once(' ')?;
    let (code, rest) = rest.split_once(' ')?;
    let (next, mark) = rest.split_once(' ').unwrap_or((rest, ""));
    Some(Entry {
        text: name(text.strip_suffix(':').unwrap_or(text))?,
        flag: flag(mark)?,
        colon: text.ends_with(':'),
        code: code.parse().ok()?,
        next: next.parse().ok()?,
        help: some_name(help),
    })
}

// The flag of this name. A number is the entry that a short form stands for.
fn flag(mark: &str) -> Option<Flag> {
    match mark {
        "" => Some(Flag::Plain),
        "Invisible" => Some(Flag::Invisible),
        "NoRecognise" => Some(Flag::NoRecognise),
        _ => Some(Flag::Short(mark.parse().ok()?)),
    }
}
