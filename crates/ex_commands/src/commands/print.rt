// PRINT.
#![tactic(auto, using(cm_io::proofs::Texts::each))]

ghost use Rattle.std.specs.Prelude.{true, ◌&&◌, nat_le, nat_lt, ◌≡◌, unwrap_or};
ghost use Rattle.std.specs.Str.{IsAscii};
ghost use Rattle.ex_store.specs.declared.limits.TheConstants.{COPIES_LIMIT};
ghost use Rattle.ex_store.specs.Plan.{IsSource};
ghost use Rattle.ex_commands.specs.Answer.{MayAsk};
ghost use Rattle.ex_commands.specs.Commands.Print.{after_in, copies_in, form_by, form_in, job_in, note_in, number_by, print_of, prints, quoted_by, request_of, word_by};
ghost use Rattle.ex_commands.specs.Outcome.{Outcome};
ghost use Rattle.ex_commands.specs.NameParts.{IsReadable, IsSaid, line_of};

use crate::acts::refuse;
use crate::fields::{day_by, last_at, place_in};
use crate::pairs::Origin;
use crate::place::upper;
use crate::plans::play;
use crate::{Acted, Command};
use cm_blocks::{Grammar, Role};
use cm_fields::{Code, Value, unquoted};
use cm_files::Names;
use cm_io::{Sink, Writer};
use cm_state::{Session, part};
use cm_text::Name;
use ex_store::{COPIES_LIMIT, Place, Plan, Request, Store};

// The rule of forms.
pub(crate) const FORM_RULE: u8 = 1;

// The nodes that read the values of the switches.
pub(crate) const AFTER_NODE: u16 = 40;

pub(crate) const COPIES_NODE: u16 = 41;

pub(crate) const FORMS_NODE: u16 = 42;

pub(crate) const JOBNAME_NODE: u16 = 43;

pub(crate) const NOTE_NODE: u16 = 44;

// The number of the form NORMAL.
pub(crate) const NORMAL: u8 = 1;

/// What a line of PRINT commands.
pub(crate) fn read<N: Names>(session: &Session, grammar: &Grammar, names: &N) -> Command
    requires { IsReadable session.now.fields }
    ensures { result ≡ print_of (line_of grammar.now (N.catalogue names.now) session.now) }
{
    match place_in(session.field_of(Role::Files), session, grammar, names) {
        Some(files) => Command::Print {
            files,
            copies: copies_in(session),
            form: form_in(session),
            after: after_in(session),
            job: job_in(session, grammar, names),
            note: note_in(session, grammar, names),
        },
        None => Command::Empty,
    }
}

fn number_by(value: &Value) -> Option<u64>
    ensures { result ≡ number_by value.now }
{
    match value {
        Value::Number(number) => Some(*number),
        _ => None,
    }
}

// How many copies.
fn copies_in(session: &Session) -> u64
    ensures { result ≡ copies_in session.now.fields }
{
    match last_at(COPIES_NODE, session) {
        Some(field) => number_by(field.value()).unwrap_or(1),
        None => 1,
    }
}

// The number of a form, where the rule of forms took it.
fn form_by(value: &Value) -> Option<u8>
    requires { IsSaid value.now }
    ensures { result ≡ form_by value.now }
{
    match value {
        Value::Hook { id, value } => {
            if *id != FORM_RULE {
                return None;
            }
            Some(*value as u8)
        }
        _ => None,
    }
}

// The form.
fn form_in(session: &Session) -> u8
    requires { IsReadable session.now.fields }
    ensures { result ≡ form_in session.now.fields }
{
    match last_at(FORMS_NODE, session) {
        Some(field) => form_by(field.value()).unwrap_or(NORMAL),
        None => NORMAL,
    }
}

// The day.
fn after_in(session: &Session) -> Option<i32>
    ensures { result ≡ after_in session.now.fields }
{
    match last_at(AFTER_NODE, session) {
        Some(field) => day_by(field.value()),
        None => None,
    }
}

// A word, in upper case.
fn word_by(text: &[u8], value: &Value) -> Option<Name>
    requires ascii { IsAscii text.now }
    requires said { IsSaid value.now }
    ensures { result ≡ word_by text.now value.now }
{
    match value {
        Value::Word(place) => Some(upper(text, *place)),
        _ => None,
    }
}

// The name of the job.
fn job_in<N: Names>(session: &Session, grammar: &Grammar, names: &N) -> Option<Name>
    requires { IsReadable session.now.fields }
    ensures { result ≡ job_in (line_of grammar.now (N.catalogue names.now) session.now) }
{
    match last_at(JOBNAME_NODE, session) {
        Some(field) => word_by(session.source_of(field, grammar), field.value()),
        None => None,
    }
}

/// What a quoted text says, a quote that stands twice as one. Another value says nothing.
pub fn quoted_by(text: &[u8], value: &Value) -> Name
    requires { IsAscii text.now }
    ensures { result ≡ quoted_by text.now value.now }
{
    match value {
        Value::Quoted(place) => unquoted(part(text, *place)),
        _ => Name::new(""),
    }
}

// The note.
fn note_in<N: Names>(session: &Session, grammar: &Grammar, names: &N) -> Name
    ensures { result ≡ note_in (line_of grammar.now (N.catalogue names.now) session.now) }
{
    match last_at(NOTE_NODE, session) {
        Some(field) => quoted_by(session.source_of(field, grammar), field.value()),
        None => Name::new(""),
    }
}

// A name of its own.
fn own(name: &Name) -> Name
    ensures { result ≡ name.now }
{
    Name::new(name.as_str())
}

fn own_or_none(name: &Option<Name>) -> Option<Name>
    ensures { result ≡ name.now }
{
    match name {
        Some(name) => Some(own(name)),
        None => None,
    }
}

/// What is asked for with files, of which one copy is printed.
pub(crate) fn request(form: u8, after: Option<i32>, job: &Option<Name>, note: &Name) -> Request
    ensures { result ≡ request_of 1 form after job.now note.now }
{
    Request {
        copies: 1,
        form,
        after,
        job: own_or_none(job),
        note: own(note),
    }
}

// Whether so many copies may be asked for.
fn may_copy(copies: u64) -> bool
    ensures { result ≡ (nat_lt 0 copies && nat_le copies COPIES_LIMIT) }
{
    copies > 0 && copies <= u64::from(COPIES_LIMIT)
}

/// Queues files, so many copies of each: 1 to 63.
pub(crate) fn act<S: Sink>(
    store: &mut Store,
    files: &Place,
    copies: u64,
    request: Request,
    moment: u64,
    out: &mut Writer<'_, S>,
) -> Acted
    requires files { IsSource files.now store.old.state }
    requires request { MayAsk request.form request.after request.job request.note }
    ensures { Outcome S.Sink out.old out.new
        (prints files.now copies request.form request.after request.job request.note moment store.old.state) true
        store.old.state store.new.state result }
{
    if !may_copy(copies) {
        return refuse(Code::CopyRange, out);
    }
    let request = Request {
        copies: copies as u8,
        ..request
    };
    let plan = Plan::Print {
        files: files.copy(),
        request,
    };
    play(store, plan, Origin::Queue, moment, out)
}
