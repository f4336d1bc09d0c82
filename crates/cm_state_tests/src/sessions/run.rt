// Keys that are taken one after another, and their outcome.
ghost use Rattle.std.specs.Prelude.{◌≡◌, ◌<◌, None, IfOk, length};
ghost use Rattle.cm_blocks.specs.Fault.{grammar_fault};
ghost use Rattle.cm_blocks.specs.Setting.{Setting, setting};
ghost use Rattle.cm_state.specs.SessionState.{IsReady};

use crate::cabinet::Cabinet;
use crate::grammars::exec;
use crate::judges::Judges;
use cm_blocks::{Grammar, Steps};
use cm_files::Names;
use cm_hooks::Rules;
use cm_io::{MemSink, Put};
use cm_state::{Prompt, Session, Turn};
use std::alloc::Global;
use std::process::Abort;
use std::sync::ledger::Ledger;
use std::test::Fail;

// A session with what it has shown and logged, and the outcome of its last key.
#[derive(Drop)]
pub(crate) struct Run {
    pub(crate) session: Session,
    pub(crate) turn: Turn,
    prompt: Prompt,
    shown: MemSink,
    logged: MemSink,
}

impl Run {
    fn new(alloc: Global, prompt: Prompt) -> Result<Run, Fail> {
        let shown = MemSink::new(alloc, 4096)?;
        let logged = MemSink::new(alloc, 131_072)?;
        Ok(Run {
            session: Session::new(),
            turn: Turn::Edited,
            prompt,
            shown,
            logged,
        })
    }

    // Begins a line at the commands.
    fn begin(&mut self, rt: &impl Abort)
        ensures { (s : Setting) → grammar_fault s.graph ≡ None → 0 < length s.graph.nodes
            → IsReady s self.new.session }
    {
        let begun = self.session.begin(0, self.prompt, &mut self.shown);
        assert_eq!(rt; begun, Put::Done);
    }

    // Takes one key and logs it. After a line that is over it begins another.
    fn key<N: Names, R: Rules, L: Ledger>(
        &mut self,
        rt: &impl Abort,
        key: u8,
        grammar: &Grammar,
        names: &N,
        rules: &R,
        steps: &mut Steps<L>,
    )
        requires ready { IsReady (setting grammar.now (N.catalogue names.now) (R.meanings rules.now)) self.old.session }
        requires some { 0 < length grammar.now.nodes }
        ensures { IsReady (setting grammar.now (N.catalogue names.now) (R.meanings rules.now)) self.new.session }
    {
        grammar.has_no_fault();
        self.turn = self
            .session
            .key(key, grammar, names, rules, &mut self.shown, steps);
        let logged = self.session.log_line(key, &mut self.logged);
        assert_eq!(rt; logged, Put::Done);
        if self.turn == Turn::Edited {
            return;
        }
        self.begin(rt);
    }

    // What is shown.
    pub(crate) fn shown(&self) -> &[u8] {
        self.shown.bytes()
    }

    // The outcome of the last key, a bar, and what is shown.
    fn answer(&self, alloc: Global) -> Result<String, Fail> {
        let shown = str::from_utf8(self.shown.bytes())?;
        Ok(format!(in alloc; "{:?}|{shown}", self.turn)?)
    }

    // Whether the log ends so before its last line feed.
    fn logs(&self, end: &str) -> bool {
        match self.logged.bytes() {
            [log @ .., b'\n'] => log.ends_with(end.as_bytes()),
            _ => false,
        }
    }
}

// The run of some keys, one a character, after this prompt.
pub(crate) fn run_after<N: Names, R: Rules, L: Ledger>(
    rt: &impl Abort,
    alloc: Global,
    prompt: Prompt,
    keys: &str,
    grammar: &Grammar,
    names: &N,
    rules: &R,
    steps: &mut Steps<L>,
) -> Result<Run, Fail>
    requires some { 0 < length grammar.now.nodes }
    ensures { IfOk result
        (λ run. IsReady (setting grammar.now (N.catalogue names.now) (R.meanings rules.now)) run.session) }
{
    grammar.has_no_fault();
    let mut run = Run::new(alloc, prompt)?;
    run.begin(rt);
    for key in keys.chars() {
        run.key(
            rt,
            u8::try_from(u32::from(key))?,
            grammar,
            names,
            rules,
            steps,
        );
    }
    Ok(run)
}

// And after `@`.
pub(crate) fn run_of<N: Names, R: Rules, L: Ledger>(
    rt: &impl Abort,
    alloc: Global,
    keys: &str,
    grammar: &Grammar,
    names: &N,
    rules: &R,
    steps: &mut Steps<L>,
) -> Result<Run, Fail>
    requires some { 0 < length grammar.now.nodes }
    ensures { IfOk result
        (λ run. IsReady (setting grammar.now (N.catalogue names.now) (R.meanings rules.now)) run.session) }
{
    run_after(rt, alloc, Prompt::Main, keys, grammar, names, rules, steps)
}

// The EXEC's grammar.
pub(crate) fn exec_of(rt: &impl Abort, alloc: Global) -> Result<Grammar, Fail>
    ensures { IfOk result (λ grammar. 0 < length grammar.nodes) }
{
    let grammar = exec(alloc)?;
    assert!(rt; grammar.nodes() > 0);
    Ok(grammar)
}

// The keys of a case, their outcome, and how the log ends.
fn parts(case: &str) -> Option<(&str, &str, &str)> {
    let (keys, rest) = case.split_once('|')?;
    let (wanted, end) = rest.rsplit_once('|')?;
    Some((keys, wanted, end))
}

// The outcome of the last of the keys, and what is shown. The log has to end so.
fn answer_of<L: Ledger>(
    rt: &impl Abort,
    alloc: Global,
    keys: &str,
    end: &str,
    grammar: &Grammar,
    steps: &mut Steps<L>,
) -> Result<String, Fail>
    requires nodes { 0 < length grammar.now.nodes }
{
    let run = run_of(rt, alloc, keys, grammar, &Cabinet, &Judges, steps)?;
    assert!(rt; run.logs(end), "the log ends otherwise than {end}");
    run.answer(alloc)
}

// A case is keys, the outcome of the last, what is shown, and how the log ends.
pub(crate) fn try_case<L: Ledger>(
    rt: &impl Abort,
    alloc: Global,
    case: &str,
    grammar: &Grammar,
    steps: &mut Steps<L>,
) -> Result<(), Fail>
    requires nodes { 0 < length grammar.now.nodes }
{
    let (keys, wanted, end) = parts(case).ok_or("a case")?;
    let found = answer_of(rt, alloc, keys, end, grammar, steps)?;
    assert_eq!(rt; found.as_str(), wanted);
    Ok(())
}
