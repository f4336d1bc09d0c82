// Plans by their texts: a verb, one or two words, and the moment, 99 where none is given.

use super::forms::may_plan;
use super::listing::put_pairs;
use super::places::{name, place};
use crate::cases::first_word;
use ex_generations::Bytes;
use ex_store::{Plan, Refusal, Request, Store};
use std::alloc::{AllocError, Global};
use std::process::Abort;

// A directory that is made, or that keeps as many generations.
fn build(rt: &impl Abort, directory: &str, retention: &str) -> Plan {
    Plan::Build {
        directory: name(rt, directory),
        retention: retention.parse().ok(),
    }
}

// So many bytes.
fn zeros(alloc: Global, size: usize) -> Result<Bytes, AllocError> {
    Ok(Bytes::new(vec![in alloc; 0; size]?))
}

// A file of so many bytes.
fn write(rt: &(impl Abort + AllocGlobal), to: &str, size: &str) -> Plan {
    let size = size.parse().expect(rt, "a number of bytes");
    Plan::Write {
        to: place(rt, to),
        bytes: zeros(rt.alloc(), size).expect(rt, "memory"),
    }
}

// A file that holds a text.
fn put(rt: &(impl Abort + AllocGlobal), to: &str, text: &str) -> Plan {
    let bytes = Vec::from_slice(rt.alloc(), text.as_bytes()).expect(rt, "memory");
    Plan::Write {
        to: place(rt, to),
        bytes: Bytes::new(bytes),
    }
}

// What is asked for with files: copies, form, day, job and note, with `/` between. Where a part is left out, it is one
// copy on the second form, with no day, no job and no note.
fn request(rt: &impl Abort, text: &str) -> Request {
    let mut parts = text.split('/');
    let copies = parts.next().unwrap_or("").parse().unwrap_or(1);
    let form = parts.next().unwrap_or("").parse().unwrap_or(1);
    let after = parts.next().unwrap_or("").parse().ok();
    let job = match parts.next() {
        Some("") | None => None,
        Some(job) => Some(name(rt, job)),
    };
    Request {
        copies,
        form,
        after,
        job,
        note: name(rt, parts.next().unwrap_or("")),
    }
}

fn plan_of(rt: &(impl Abort + AllocGlobal), verb: &str, first: &str, second: &str) -> Plan {
    match verb {
        "build" => build(rt, first, second),
        "write" => write(rt, first, second),
        "put" => put(rt, first, second),
        "define" => Plan::Define {
            name: name(rt, first),
            directory: name(rt, second),
        },
        "print" => Plan::Print {
            files: place(rt, first),
            request: request(rt, second),
        },
        "copy" => Plan::Copy {
            from: place(rt, first),
            to: place(rt, second),
        },
        "rename" => Plan::Rename {
            from: place(rt, first),
            to: place(rt, second),
        },
        _ => Plan::Append {
            from: place(rt, first),
            to: place(rt, second),
        },
    }
}

// Does a plan, and tells its pairs; or tells the code with which it is refused.
fn put_done(
    rt: &impl Abort,
    store: &mut Store,
    plan: Plan,
    moment: u64,
    told: &mut String,
) -> Result<(), AllocError> {
    assert!(rt; may_plan(store, &plan), "the plan cannot be prepared");
    match store.prepare(plan, moment) {
        Ok(ready) => {
            put_pairs(told, &ready).expect(rt, "memory");
            store.apply(ready);
            Ok(())
        }
        Err(Refusal::Code(code)) => write!(told, "{code:?}"),
        Err(Refusal::NoMemory) => told.push_str("there is no memory"),
    }
}

/// Does a plan, and tells what comes of it.
pub(super) fn put_plan(
    rt: &(impl Abort + AllocGlobal),
    store: &mut Store,
    verb: &str,
    rest: &str,
    told: &mut String,
) -> Result<(), AllocError> {
    let (first, more) = first_word(rest);
    let (second, moment) = first_word(more);
    let plan = plan_of(rt, verb, first, second);
    put_done(rt, store, plan, moment.parse().unwrap_or(99), told)
}

/// Writes files, each of which holds its own name, at the moments 10, 20 and so on.
pub(super) fn put_files(
    rt: &(impl Abort + AllocGlobal),
    store: &mut Store,
    files: &str,
    told: &mut String,
) -> Result<(), AllocError> {
    let mut moment: u64 = 0;
    for file in files.split(' ') {
        moment = moment.saturating_add(10);
        put_done(rt, store, put(rt, file, file), moment, told)?;
    }
    Ok(())
}
