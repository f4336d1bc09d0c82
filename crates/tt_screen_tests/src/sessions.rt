// What stands on the screen after the keys of a session.
ghost use Rattle.std.specs.Prelude.{◌≡◌, ◌<◌, length};
ghost use Rattle.cm_blocks.specs.Fault.{grammar_fault};
ghost use Rattle.cm_blocks.specs.Setting.{Setting, setting};
ghost use Rattle.cm_hooks.specs.Meanings.{no_meanings};
ghost use Rattle.cm_state.specs.SessionState.{IsReady};

use crate::commands::grammar_of;
use crate::notation::push_said;
use cm_blocks::{Grammar, Steps};
use cm_files::{Names, OneDirectory};
use cm_hooks::NoRules;
use cm_io::{MemSink, MemSource, Put};
use cm_state::{Label, Prompt, Session, Turn};
use cm_text::{NAME_LIMIT, Name};
use std::alloc::Global;
use std::marker::Brand;
use std::process::Abort;
use std::sync::ledger::{Blank, Ledger};
use std::test::Fail;
use tt_screen::{Status, tt20};

// A session with its prompt, and what it has shown.
#[derive(Drop)]
struct Run {
    session: Session,
    prompt: Prompt,
    shown: MemSink,
}

impl Run {
    fn new(alloc: Global, prompt: Prompt) -> Result<Run, Fail> {
        let shown = MemSink::new(alloc, 4096)?;
        Ok(Run {
            session: Session::new(),
            prompt,
            shown,
        })
    }

    // Begins a line at the commands.
    fn begin(&mut self, rt: &impl Abort)
        ensures { (s : Setting) → grammar_fault s.graph ≡ None → 0 < length s.graph.nodes
            → IsReady s self.new.session }
    {
        let begun = self.session.begin(0, self.prompt, &mut self.shown);
        assert_eq!(rt; begun, Put::Done);
    }

    // Takes one key. After a line that is over it begins another.
    fn key<N: Names, L: Ledger>(
        &mut self,
        rt: &impl Abort,
        key: u8,
        grammar: &Grammar,
        names: &N,
        steps: &mut Steps<L>,
    )
        requires ready { IsReady (setting grammar.now (N.catalogue names.now) no_meanings) self.old.session }
        requires some { 0 < length grammar.now.nodes }
        ensures { IsReady (setting grammar.now (N.catalogue names.now) no_meanings) self.new.session }
    {
        grammar.has_no_fault();
        let turn = self
            .session
            .key(key, grammar, names, &NoRules, &mut self.shown, steps);
        if turn == Turn::Edited {
            return;
        }
        self.begin(rt);
    }
}

// What a session shows that takes these keys.
fn shown_of<N: Names, L: Ledger>(
    rt: &impl Abort,
    alloc: Global,
    prompt: Prompt,
    keys: &[u8],
    grammar: &Grammar,
    names: &N,
    steps: &mut Steps<L>,
) -> Result<MemSink, Fail>
    requires some { 0 < length grammar.now.nodes }
{
    grammar.has_no_fault();
    let mut run = Run::new(alloc, prompt)?;
    run.begin(rt);
    for key in keys {
        run.key(rt, *key, grammar, names, steps);
    }
    Ok(run.shown)
}

// The prompt, the keys and the rows of a case.
fn parts(case: &str) -> Option<(&str, &str, &str)> {
    let (prompt, rest) = case.split_once('|')?;
    let (keys, rows) = rest.split_once('|')?;
    Some((prompt, keys, rows))
}

fn prompt_of(rt: &impl Abort, text: &str) -> Prompt {
    match text {
        "@" => Prompt::Main,
        "@@" => Prompt::Sub,
        "LAMPS>" => Prompt::Own("LAMPS>"),
        _ => named(rt, text),
    }
}

// A prompt that is made at run time.
fn named(rt: &impl Abort, text: &str) -> Prompt {
    let name = text.trim_end_matches('#');
    assert!(rt;
        name.len() <= NAME_LIMIT && name != text,
        "{text} is no prompt"
    );
    Prompt::Named(Label::of(&Name::new(name)), Label::of(&Name::new("#")))
}

// The bytes that a text says.
fn said(alloc: Global, text: &str) -> Result<String, Fail> {
    let mut bytes = String::new(alloc);
    push_said(text, &mut bytes)?;
    Ok(bytes)
}

// Whether the rows of a screen that was given these bytes are those.
fn are_rows(alloc: Global, shown: &[u8], rows: &[u8]) -> Result<bool, Fail> {
    let mut screen = MemSink::new(alloc, 4096)?;
    let status = tt20(&mut MemSource::new(alloc, shown, None)?, &mut screen);
    Ok(status == Status::Done && screen.bytes() == rows)
}

fn try_case<N: Names, L: Ledger>(
    rt: &impl Abort,
    alloc: Global,
    case: &str,
    grammar: &Grammar,
    names: &N,
    steps: &mut Steps<L>,
) -> Result<(), Fail>
    requires some { 0 < length grammar.now.nodes }
{
    let (prompt, keys, rows) = parts(case).ok_or("a case")?;
    let prompt = prompt_of(rt, prompt);
    let keys = said(alloc, keys)?;
    let rows = said(alloc, rows)?;
    let shown = shown_of(rt, alloc, prompt, keys.as_bytes(), grammar, names, steps)?;
    assert!(rt;
        are_rows(alloc, shown.bytes(), rows.as_bytes())?,
        "at {case}"
    );
    Ok(())
}

// The counter wants the runtime itself.
#[tactic(auto, unfolding(cm_text::specs::Bytes::is_name, cm_text::specs::Bytes::is_word))]
fn tries_with<L: Ledger, A: Abort>(
    rt: &A,
    runtime: &HostRuntime,
    blank: Blank,
    cases: &[u8],
) -> Result<(), Fail>
    requires name { blank.name ≡ L.name }
    requires parts { blank.parts ≡ L.parts }
    requires some { 0 < L.parts }
{
    let alloc = runtime.alloc();
    let grammar = grammar_of(alloc)?;
    assert!(rt; grammar.nodes() > 0);
    let house = OneDirectory::new("HOUSE");
    let mut steps: Steps<L> = Steps::new(runtime, blank);
    for case in str::from_utf8(cases)?.lines() {
        try_case(rt, alloc, case, &grammar, &house, &mut steps)?;
    }
    Ok(())
}

// Tries cases, one a line: a prompt, the keys, and the rows that then stand on the screen.
fn tries(rt: &impl Abort, runtime: &HostRuntime, cases: &str) -> Result<(), Fail> {
    tries_with::<Brand, _>(rt, runtime, Blank::new(1), cases.as_bytes())
}

// Of a line past the 80th column the first bytes are there; what is taken away and typed again past it is not seen.
const LONG: &str = "\
@|{78*A}B|@{78*A}B{EOL}
@|{78*A}BC|@{78*A}B{EOL}
@@|{78*A}B|@@{78*A}{EOL}
@@|{77*A}B{2*C}|@@{77*A}B{EOL}
LAMPS>|{73*A}BC|LAMPS>{73*A}B{EOL}
@|{255*A}|@{79*A}{EOL}
@|{256*A}|@{79*A}{EOL}
@|{255*A}{176*DEL}B|@{79*A}{EOL}
@|{255*A}{177*DEL}B|@{78*A}B{EOL}
@@|{255*A}{178*DEL}B|@@{77*A}B{EOL}
@|{255*A}{^U}B|@B{EOL}
@@|{40*A}{SP}{60*B}{^W}C|@@{40*A} C{EOL}
LAMPS>|{255*A}{^R}|LAMPS>{74*A}{EOL}LAMPS>{74*A}{EOL}
@|{70*SP}DIR{ESC}|@{70*SP}DIRECTORY{EOL}
@|{70*SP}DIR{ESC}{6*DEL}X|@{70*SP}DIRECTORY{EOL}
@|{70*SP}DIR{ESC}{7*DEL}X|@{70*SP}DIRECTORX{EOL}
host#|{74*A}BC|host#{74*A}B{EOL}
abcdefghijklmnopqrstuvwxyzabcdefghijklm#|{255*A}{^R}|abcdefghijklmnopqrstuvwxyzabcdefghijklm#{40*A}{EOL}abcdefghijklmnopqrstuvwxyzabcdefghijklm#{40*A}{EOL}";

#[test]
fn shows_the_first_bytes_of_long_lines(rt: HostRuntime) -> Result<(), Fail> {
    tries(&rt, &rt, LONG)
}

const SHORT: &str = "\
@||@{EOL}
@@|A{TAB}B|@@A B{EOL}
@|{TAB}{TAB}{DEL}A|@ A{EOL}
@|{DEL}A{^U}{^U}{^W}B|@B{EOL}
@|DIR{ESC}A{^W}B|@DIRECTORY (OF) B{EOL}
LAMPS>|A{TAB}{^R}B|LAMPS>A{EOL}LAMPS>A B{EOL}
@|DEL ?A|@DEL ? confirm with carriage return{EOL}@DEL A{EOL}
@@|DE{CR}A|@@DE{EOL}@@A{EOL}
@|DEL A{CR}{^H}B|@DEL A{EOL}?Not confirmed{EOL}@DEL B{EOL}
@|A{^H}B|@AB{EOL}
@|D{CR}A|@D{EOL}?Ambiguous keyword{EOL}@A{EOL}
LAMPS>|AB{^C}A|LAMPS>AB^C{EOL}LAMPS>A{EOL}
host#||host#{EOL}
#|A{TAB}{^R}B|#A{EOL}#A B{EOL}
r#|DEL ?A|r#DEL ? confirm with carriage return{EOL}r#DEL A{EOL}
host#|AB{^C}A|host#AB^C{EOL}host#A{EOL}";

#[test]
fn shows_prompt_and_line(rt: HostRuntime) -> Result<(), Fail> {
    tries(&rt, &rt, SHORT)
}

// Of a line that is continued the last row is there, and the rows before it stay where they are.
const CONTINUED: &str = "\
@|DIR -{CR}AB|@DIR -{EOL}AB{EOL}
@|DIR -{CR}{DEL}B|@DIR -{EOL}{EOL}@DIR B{EOL}
@|DIR -{CR}AB{DEL}C|@DIR -{EOL}AC{EOL}
@|DIR A-{CR}-{CR}B{^R}C|@DIR A-{EOL}-{EOL}B{EOL}@DIR A-{EOL}-{EOL}BC{EOL}
@|DIR -{CR}A{^U}B|@DIR -{EOL}A{EOL}@B{EOL}
@|DEL -{CR}A{CR}{^H}B|@DEL -{EOL}A{EOL}?Not confirmed{EOL}@DEL -{EOL}B{EOL}
@|DEL -{CR}{LF}A|@DEL -{EOL}{EOL}@A{EOL}
LAMPS>|{74*A}-{CR}{79*B}CD|LAMPS>{74*A}{EOL}{79*B}C{EOL}";

#[test]
fn shows_the_rows_of_continued_lines(rt: HostRuntime) -> Result<(), Fail> {
    tries(&rt, &rt, CONTINUED)
}
