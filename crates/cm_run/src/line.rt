// Where a line begins, and what a line that is confirmed does.
ghost use Rattle.std.specs.Prelude.{◌≡◌, ◌≢◌, Err, ◌≤◌, ◌<◌, ◌+◌, ℕ, List, [], length, is_some};
ghost use Rattle.cm_text.specs.Text.{IsLine, finished};
ghost use Rattle.cm_io.specs.Contents.{Contents};
ghost use Rattle.cm_blocks.specs.KeptParse.{cost};
ghost use Rattle.cm_blocks.specs.Parse.{IsParse};
ghost use Rattle.cm_blocks.specs.declared.field.Ending.TheVariants as ending;
ghost use Rattle.cm_state.specs.SessionState.{text_of};
ghost use Rattle.cm_run.specs.Cause.{ObeyCause};
ghost use Rattle.cm_run.specs.Cut.{Traces};
ghost use Rattle.cm_run.specs.Semantics.{IsLineAt, IsSparing, setting_of};
ghost use Rattle.cm_run.specs.Observation.{observation};
ghost use Rattle.cm_run.specs.Ready.{IsReadyIn};
ghost use Rattle.cm_run.specs.Trace.{line_trace, file_session, file_trace, file_line_trace, next_line, node_of, line_start, opening};

use crate::{Application, FILE_LINES, Mode, Stop};
use cm_blocks::Steps;
use cm_io::{Put, Sink};
use cm_state::Session;
use std::sync::ledger::Ledger;

/// Begins the next line, if the next key is for one: shows its prompt.
#[tactic(auto, using(crate::proofs::ShownBytes::shows_whole, crate::proofs::ShownBytes::shows_part, crate::proofs::Joins::traces_none), unfolding(crate::specs::Ready::IsReadyIn, crate::specs::Cause::ObeyCause))]
pub(crate) fn open_line<A: Application, S: Sink>(
    app: &A,
    session: &mut Session,
    screen: &mut S,
) -> Result<(), Stop>
    ensures session { session.new ≡ line_start (A.means.mode_of app.now) session.old }
    ensures ready { IsReadyIn A.means app.now session.new }
    ensures traces { (log : Contents) → (keys : List ℕ) → (gets : ℕ) → (moments : List ℕ) → (trials : ℕ) → Traces
        (observation (S.contents screen.old) log keys gets moments trials app.now)
        (observation (S.contents screen.new) log keys gets moments trials app.now)
        (opening (A.means.mode_of app.now)) result }
    ensures later { S.faults screen.old ≤ S.faults screen.new }
    ensures cause { ObeyCause (S.faults screen.old) (S.faults screen.new) result }
    ensures spares { result ≢ Err Stop.Memory }
{
    let Mode::Line { node, prompt, .. } = app.mode() else {
        return Ok(());
    };
    app.grammar().has_no_fault();
    match session.begin(node, prompt, screen) {
        Put::Done => Ok(()),
        Put::Failed => Err(Stop::Screen),
    }
}

// A line of a command file is taken next.
fn has_line<A: Application>(app: &A) -> bool
    ensures { result ≡ is_some (next_line A.means app.now) }
{
    match app.mode() {
        Mode::Line { .. } => app.file_line().is_some(),
        Mode::Raw => false,
        Mode::Ended => false,
    }
}

/// Parses a line of a command file, from the node at which a typed line would begin.
#[tactic(auto, using(crate::proofs::FileLines::file_text, crate::proofs::FileLines::file_node))]
pub(crate) fn parse_line<A: Application, L: Ledger>(
    app: &A,
    node: u16,
    line: &[u8],
    steps: &mut Steps<L>,
) -> Session
    requires node { node_of (A.means.mode_of app.now) ≡ node }
    requires within { node < length (A.means.graph_of app.now).nodes }
    requires line { IsLine line.now }
    ensures session { result ≡ file_session A.means app.now line.now }
    ensures node { result.node ≡ node }
    ensures parse { IsParse (setting_of A.means app.now) result.node (text_of result) result.fields result.ending }
    ensures steps { steps.new ≡ steps.old + cost (setting_of A.means app.now) node [] (finished line.now) }
{
    let mut session = Session::new();
    session.whole(node, line, app.grammar(), app.names(), app.rules(), steps);
    session
}

// Takes a line of a command file, if one is next: parses it under the state that it finds, and does what it says.
#[tactic(auto, using(crate::proofs::Joins::traces_none, crate::proofs::FileLines::line_traces, crate::proofs::Memory::acts_spare), unfolding(crate::specs::Cause::ObeyCause))]
fn take_line<A: Application, S: Sink, L: Ledger>(
    app: &mut A,
    moment: u64,
    screen: &mut S,
    steps: &mut Steps<L>,
) -> Result<(), Stop>
    ensures traces { (log : Contents) → (keys : List ℕ) → (gets : ℕ) → (moments : List ℕ) → Traces
        (observation (S.contents screen.old) log keys gets moments steps.old app.old)
        (observation (S.contents screen.new) log keys gets moments steps.new app.new)
        (file_line_trace A.means moment app.old (next_line A.means app.old)) result }
    ensures later { S.faults screen.old ≤ S.faults screen.new }
    ensures cause { ObeyCause (S.faults screen.old) (S.faults screen.new) result }
    ensures spares { IsSparing A.means → result ≢ Err Stop.Memory }
{
    let Mode::Line { node, .. } = app.mode() else {
        return Ok(());
    };
    let Some(line) = app.file_line() else {
        return Ok(());
    };
    let session = parse_line(app, node, line, steps);
    app.obey_file_line(&session, moment, screen)
}

// Takes the lines of command files that wait, one after the other.
#[tactic(auto, using(crate::proofs::CommandLines::files_over, crate::proofs::CommandLines::files_full, crate::proofs::CommandLines::files_more, crate::proofs::CommandLines::files_cut, crate::proofs::Course::ahead_first, crate::proofs::Causes::obey_cause_on), unfolding(crate::specs::Cause::ObeyCause))]
fn take_lines<A: Application, S: Sink, L: Ledger>(
    app: &mut A,
    moment: u64,
    screen: &mut S,
    steps: &mut Steps<L>,
) -> Result<(), Stop>
    ensures traces { (log : Contents) → (keys : List ℕ) → (gets : ℕ) → (moments : List ℕ) → Traces
        (observation (S.contents screen.old) log keys gets moments steps.old app.old)
        (observation (S.contents screen.new) log keys gets moments steps.new app.new)
        (file_trace A.means FILE_LINES moment app.old) result }
    ensures later { S.faults screen.old ≤ S.faults screen.new }
    ensures cause { ObeyCause (S.faults screen.old) (S.faults screen.new) result }
    ensures spares { IsSparing A.means → result ≢ Err Stop.Memory }
{
    for _line in 0..FILE_LINES {
        if !has_line(app) {
            return Ok(());
        }
        match take_line(app, moment, screen, steps) {
            Ok(()) => {}
            Err(stop) => return Err(stop),
        }
    }
    Ok(())
}

/// Takes the lines of command files that wait, one after the other and at most 10,000, as a run does after a line that
/// is confirmed: each is parsed under the state that it finds, its trials are counted, and it does what it says.
pub fn run_lines<A: Application, S: Sink, L: Ledger>(
    app: &mut A,
    moment: u64,
    screen: &mut S,
    steps: &mut Steps<L>,
) -> Result<(), Stop>
    ensures traces { (log : Contents) → (keys : List ℕ) → (gets : ℕ) → (moments : List ℕ) → Traces
        (observation (S.contents screen.old) log keys gets moments steps.old app.old)
        (observation (S.contents screen.new) log keys gets moments steps.new app.new)
        (file_trace A.means FILE_LINES moment app.old) result }
    ensures later { S.faults screen.old ≤ S.faults screen.new }
    ensures cause { ObeyCause (S.faults screen.old) (S.faults screen.new) result }
    ensures spares { IsSparing A.means → result ≢ Err Stop.Memory }
{
    take_lines(app, moment, screen, steps)
}

/// Does what a confirmed line commands, and then takes the lines of the command files that it names.
#[tactic(auto, using(crate::proofs::Outcomes::confirmed_on, crate::proofs::Outcomes::confirmed_cut, crate::proofs::Causes::obey_cause_on, crate::proofs::Memory::acts_spare), unfolding(crate::specs::Cause::ObeyCause))]
pub(crate) fn confirm_line<A: Application, S: Sink, L: Ledger>(
    app: &mut A,
    session: &Session,
    moment: u64,
    screen: &mut S,
    steps: &mut Steps<L>,
) -> Result<(), Stop>
    requires line { IsLineAt (A.means.mode_of app.old) session.now.node }
    requires parse { IsParse (setting_of A.means app.old) session.now.node (text_of session.now)
        session.now.fields ending.Done }
    ensures traces { (log : Contents) → (keys : List ℕ) → (gets : ℕ) → (moments : List ℕ) → Traces
        (observation (S.contents screen.old) log keys gets moments steps.old app.old)
        (observation (S.contents screen.new) log keys gets moments steps.new app.new)
        (line_trace A.means app.old session.now moment) result }
    ensures later { S.faults screen.old ≤ S.faults screen.new }
    ensures cause { ObeyCause (S.faults screen.old) (S.faults screen.new) result }
    ensures spares { IsSparing A.means → result ≢ Err Stop.Memory }
{
    match app.obey_line(session, moment, screen) {
        Ok(()) => take_lines(app, moment, screen, steps),
        Err(stop) => Err(stop),
    }
}
