// The commands of lines that are typed.
ghost use Rattle.std.specs.Prelude.{◌≡◌, ◌<◌, length};
ghost use Rattle.cm_blocks.specs.Parse.{IsParse};
ghost use Rattle.cm_blocks.specs.Setting.{setting};
ghost use Rattle.cm_state.specs.SessionState.{IsReady, text_of};
ghost use Rattle.ex_grammar.specs.ExecRules.{exec_meanings};
ghost use Rattle.ex_grammar.specs.Graph.{exec_graph};
ghost use Rattle.ex_store.specs.State.{catalogue_of};
ghost use Rattle.ex_commands.specs.Command.{subcommand_node};

use crate::bytes::cut;
use crate::script::run;
use cm_blocks::{Ending, Grammar, Steps};
use cm_files::Flags;
use cm_io::MemSink;
use cm_state::{Prompt, Session};
use cm_text::Name;
use ex_commands::Command;
use ex_grammar::{BUILD_SUBCOMMANDS, COMMANDS, DIRECTORY_SUBCOMMANDS, ExecRules, grammar};
use ex_store::{Place, Store};
use std::alloc::{AllocError, Global};
use std::marker::Brand;
use std::process::Abort;
use std::sync::ledger::{Blank, Ledger};
use std::test::Fail;

// Takes one key, which leaves the node.
#[tactic(auto, unfolding(cm_state::specs::Edit::edited_as))]
fn take_key<L: Ledger>(
    session: &mut Session,
    key: u8,
    grammar: &Grammar,
    names: &Store,
    shown: &mut MemSink,
    steps: &mut Steps<L>,
)
    requires ready { IsReady (setting grammar.now (catalogue_of names.now.state) exec_meanings) session.old }
    ensures ready { IsReady (setting grammar.now (catalogue_of names.now.state) exec_meanings) session.new }
    ensures node { session.new.node ≡ session.old.node }
    ensures parse { IsParse (setting grammar.now (catalogue_of names.now.state) exec_meanings)
        session.new.node (text_of session.new) session.new.fields session.new.ending }
{
    let _ = session.key(key, grammar, names, &ExecRules, shown, steps);
}

// A session that has taken a line from a node on, and its end.
fn typed<L: Ledger>(
    node: u16,
    line: &str,
    grammar: &Grammar,
    names: &Store,
    shown: &mut MemSink,
    steps: &mut Steps<L>,
) -> Session
    requires node { node < length grammar.now.nodes }
    ensures node { result.node ≡ node }
    ensures parse { IsParse (setting grammar.now (catalogue_of names.now.state) exec_meanings)
        node (text_of result) result.fields result.ending }
{
    grammar.has_no_fault();
    let mut session = Session::new();
    let _ = session.begin(node, Prompt::Main, shown);
    for key in line.as_bytes() {
        take_key(&mut session, *key, grammar, names, shown, steps);
    }
    take_key(&mut session, b'\r', grammar, names, shown, steps);
    session
}

// What a line commands that is typed and finished; none where it is refused.
fn command_of<L: Ledger>(
    line: &str,
    grammar: &Grammar,
    names: &Store,
    shown: &mut MemSink,
    steps: &mut Steps<L>,
) -> Option<Command>
    requires exec { grammar.now ≡ exec_graph }
{
    ex_grammar::laws::a_command_begins_at_a_node();
    let session = typed(COMMANDS, line, grammar, names, shown, steps);
    match session.ending() {
        Ending::Done => Some(Command::of(&session, grammar, names)),
        _ => None,
    }
}

// The node where the subcommands of a command begin.
fn subcommand_node(command: &Command) -> u16
    ensures { result ≡ subcommand_node command.now }
{
    match command {
        Command::Build { .. } => BUILD_SUBCOMMANDS,
        Command::Directory { .. } => DIRECTORY_SUBCOMMANDS,
        _ => COMMANDS,
    }
}

// Adds a subcommand line that is typed and finished. False where it ended the subcommands.
fn add_sub<L: Ledger>(
    rt: &impl Abort,
    command: &mut Command,
    line: &str,
    grammar: &Grammar,
    names: &Store,
    shown: &mut MemSink,
    steps: &mut Steps<L>,
) -> bool
    requires exec { grammar.now ≡ exec_graph }
{
    ex_grammar::laws::a_command_begins_at_a_node();
    let node = subcommand_node(command);
    let session = typed(node, line, grammar, names, shown, steps);
    match session.ending() {
        Ending::Done => command.add_sub(&session),
        _ => panic!(rt; "{line} is refused"),
    }
}

/// Puts a letter for each flag, after a space.
pub(crate) fn put_flags(text: &mut String, flags: Flags) -> Result<(), AllocError> {
    if flags != Flags::default() {
        text.push(' ')?;
    }
    for (letter, is_set) in [
        ('w', flags.wild),
        ('a', flags.all_generations),
        ('d', flags.deleted),
        ('e', flags.default_all),
        ('s', flags.from_source),
        ('n', flags.new),
    ] {
        if is_set {
            text.push(letter)?;
        }
    }
    Ok(())
}

fn text_or_none(name: &Option<Name>) -> &str {
    match name {
        Some(name) => name.as_str(),
        None => "-",
    }
}

fn put_place(text: &mut String, place: Option<&Place>) -> Result<(), AllocError> {
    if let Some(place) = place {
        let directory = place.directory.as_str();
        let name = text_or_none(&place.name);
        let kind = text_or_none(&place.kind);
        write!(text, " <{directory}>{name}.{kind} {:?}", place.generation)?;
        put_flags(text, place.flags)?;
    }
    Ok(())
}

// The files that a command is for: the first, and the second ones.
fn places(command: &Command) -> (Option<&Place>, Option<&Place>) {
    match command {
        Command::Append { from, to } => (Some(from), Some(to)),
        Command::Copy { from, to } => (Some(from), Some(to)),
        Command::Rename { from, to } => (Some(from), Some(to)),
        Command::CopyTty { to } => (Some(to), None),
        Command::Delete { files } => (Some(files), None),
        Command::Directory { files, .. } => (Some(files), None),
        Command::Print { files, .. } => (Some(files), None),
        Command::Set { files, .. } => (Some(files), None),
        Command::Take { file } => (Some(file), None),
        Command::TypeOut { files } => (Some(files), None),
        Command::Undelete { files } => (Some(files), None),
        _ => (None, None),
    }
}

// The kind of a command, and the name that it is for.
fn kind(command: &Command) -> (&'static str, &str) {
    match command {
        Command::Empty => ("Empty", ""),
        Command::Append { .. } => ("Append", ""),
        Command::Build { directory, .. } => ("Build ", directory.as_str()),
        Command::Connect { directory } => ("Connect ", directory.as_str()),
        Command::Copy { .. } => ("Copy", ""),
        Command::CopyTty { .. } => ("CopyTty", ""),
        Command::Define { name, .. } => ("Define ", name.as_str()),
        Command::Delete { .. } => ("Delete", ""),
        Command::Directory { .. } => ("Directory", ""),
        Command::Expunge { directory } => ("Expunge ", text_or_none(directory)),
        Command::Information { what: 1 } => ("Information ", "1"),
        Command::Information { what: 2 } => ("Information ", "2"),
        Command::Information { what: 3 } => ("Information ", "3"),
        Command::Information { what: 4 } => ("Information ", "4"),
        Command::Information { .. } => ("Information ", "of another topic"),
        Command::Logout => ("Logout", ""),
        Command::Print { .. } => ("Print", ""),
        Command::Remark => ("Remark", ""),
        Command::Rename { .. } => ("Rename", ""),
        Command::Set { .. } => ("Set", ""),
        Command::Take { .. } => ("Take", ""),
        Command::TypeOut { .. } => ("TypeOut", ""),
        Command::Undelete { .. } => ("Undelete", ""),
    }
}

fn put_number(text: &mut String, sign: &str, number: Option<i32>) -> Result<(), AllocError> {
    if let Some(number) = number {
        write!(text, " {sign}{number}")?;
    }
    Ok(())
}

fn put_word(text: &mut String, word: &str, is_there: bool) -> Result<(), AllocError> {
    if is_there {
        write!(text, " {word}")?;
    }
    Ok(())
}

fn put_name(text: &mut String, sign: &str, name: Option<&Name>) -> Result<(), AllocError> {
    if let Some(name) = name {
        write!(text, " {sign}{}", name.as_str())?;
    }
    Ok(())
}

// What switches and subcommands say, and the directory of a logical name.
fn put_parts(text: &mut String, command: &Command) -> Result<(), AllocError> {
    match command {
        Command::Build { retention, sub, .. } => {
            put_number(text, "keep ", retention.map(i32::from))?;
            put_word(text, "sub", *sub)
        }
        Command::Directory {
            since,
            before,
            deleted,
            read,
            sub,
            ..
        } => {
            put_number(text, "since ", *since)?;
            put_number(text, "before ", *before)?;
            put_word(text, "deleted", *deleted)?;
            put_word(text, "read", *read)?;
            put_word(text, "sub", *sub)
        }
        Command::Set { keep, .. } => put_number(text, "keep ", Some(i32::from(*keep))),
        Command::Define { directory, .. } => put_name(text, "as ", directory.as_ref()),
        Command::Print {
            copies,
            form,
            after,
            job,
            note,
            ..
        } => {
            write!(text, " {copies} on {form}")?;
            put_number(text, "after ", *after)?;
            put_name(text, "job ", job.as_ref())?;
            write!(text, " note {}", note.as_str())
        }
        _ => Ok(()),
    }
}

// A command as a text.
fn shown(alloc: Global, command: &Command) -> Result<String, AllocError> {
    let (kind, name) = kind(command);
    let (first, second) = places(command);
    let mut text = String::new(alloc);
    write!(text, "{kind}{name}")?;
    put_place(&mut text, first)?;
    put_place(&mut text, second)?;
    put_parts(&mut text, command)?;
    Ok(text)
}

fn is_command(rt: &(impl Abort + AllocGlobal), command: &Command, wanted: &str) {
    let text = shown(rt.alloc(), command).expect(rt, "memory");
    assert_eq!(rt; text.as_str(), wanted);
}

// Types lines over a store: each is a case, with what it commands. Its subcommand lines are after it, each after a
// tilde; the last of them has no field where the command is to wait no more. The counter wants the runtime itself.
fn try_lines<L: Ledger, A: Abort + AllocGlobal>(
    rt: &A,
    runtime: &HostRuntime,
    blank: Blank,
    store: &Store,
    cases: &[u8],
) -> Result<(), Fail>
    requires name { blank.name ≡ L.name }
    requires parts { blank.parts ≡ L.parts }
    requires some { 0 < L.parts }
{
    let grammar = grammar(rt.alloc())?;
    let mut shown = MemSink::new(rt.alloc(), 65_536)?;
    let mut steps: Steps<L> = Steps::new(runtime, blank);
    for case in str::from_utf8(cases)?.lines() {
        let (typed, wanted) = cut(case.trim_start());
        let mut lines = typed.split('~');
        let line = lines.next().unwrap_or("");
        let Some(mut command) = command_of(line, &grammar, store, &mut shown, &mut steps) else {
            assert_eq!(rt; wanted, "?", "{line} is refused");
            continue;
        };
        for line in lines {
            let more = add_sub(
                rt,
                &mut command,
                line,
                &grammar,
                store,
                &mut shown,
                &mut steps,
            );
            let line = line.trim_start();
            assert_eq!(rt; more, !line.is_empty() && !line.starts_with('!'));
        }
        is_command(rt, &command, wanted);
    }
    Ok(())
}

// [command]
#[test]
fn a_line_means_files_and_names(rt: HostRuntime) -> Result<(), Fail> {
    let store = run(&rt, "1:WRITE A.TXT.2");
    let cases = "|Empty
        BUILD <X>|Build X
        build <new.dir-1>|Build NEW.DIR-1
        CONNECT <OPERATOR>|Connect OPERATOR
        CONNECT operator|Connect OPERATOR
        CONNECT|Connect OPERATOR
        DEFINE A:|Define A
        define sys_2:|Define SYS_2
        DEFINE (LOGICAL NAME) src: (AS) <operator>|Define SRC as OPERATOR
        DEFINE PS: <OPERATOR>|?
        EXPUNGE|Expunge -
        EXPUNGE <operator>|Expunge OPERATOR
        INFORMATION D|Information 1
        INF (ABOUT) LOGICAL-NAMES|Information 2
        INF OUT|Information 3
        INFORMATION VERSION|Information 4
        KJOB|Logout
        LOGOUT|Logout
        REMARK x|Remark
        copy tty: a.txt|CopyTty <OPERATOR>A.TXT Missing ws
        COPY TTY:X|CopyTty <OPERATOR>X.- Missing ws
        copy a.*.2 <operator>*.bak.-1|Copy <OPERATOR>A.* Number(2) w <OPERATOR>*.BAK Next ws
        DELETE A.TXT.2|Delete <OPERATOR>A.TXT Number(2) wa
        DIRECTORY|Directory <OPERATOR>*.* All wae
        DIRECTORY b|Directory <OPERATOR>B.- Missing wae
        APPEND *.TXT C.TXT|Append <OPERATOR>*.TXT Missing w <OPERATOR>C.TXT Missing
        append a.txt.2 <operator>b.0|Append <OPERATOR>A.TXT Number(2) w <OPERATOR>B.0 Missing
        RENAME A.TXT B.FOR|Rename <OPERATOR>A.TXT Missing w <OPERATOR>B.FOR Missing ws
        rename a.* *.bak.-1|Rename <OPERATOR>A.* Missing w <OPERATOR>*.BAK Next ws
        SET FILE GENERATION-RETENTION-COUNT A.TXT 0|Set <OPERATOR>A.TXT Missing wa keep 0
        set file g (of files) a.txt.2 (to) 63|Set <OPERATOR>A.TXT Number(2) wa keep 63
        S F G *.* 007|Set <OPERATOR>*.* Missing wa keep 7
        SET FILE GEN A.TXT 64|?
        SET FILE GEN A.TXT X|?
        SET FILE GEN A.TXT|?
        SET FILE GEN B.TXT 1|?
        SET FILE GEN|?
        SET FILE 1|?
        SET|?
        TAKE A.TXT|Take <OPERATOR>A.TXT Missing
        ta (commands from) a.txt.2|Take <OPERATOR>A.TXT Number(2)
        TAKE ps:<operator>a.txt.0|Take <OPERATOR>A.TXT Highest
        TAKE A.TXT.-2|Take <OPERATOR>A.TXT Lowest
        TAKE A.*|?
        TAKE A.TXT.*|?
        TAKE A.TXT.-1|?
        TAKE B.TXT|?
        TAKE|?
        T A.TXT|TypeOut <OPERATOR>A.TXT Missing w
        type *.txt.2|TypeOut <OPERATOR>*.TXT Number(2) w";
    try_lines::<Brand, _>(&rt, &rt, Blank::new(1), &store, cases.as_bytes())
}

#[test]
fn switches_say_how_files_are_printed(rt: HostRuntime) -> Result<(), Fail> {
    let store = run(&rt, "1:WRITE A.");
    let cases = "PRINT A|Print <OPERATOR>A.- Missing w 1 on 1 note\x20
        P *.*/COPIES:0|Print <OPERATOR>*.* Missing w 0 on 1 note\x20
        P A /C:1 /C:63|Print <OPERATOR>A.- Missing w 63 on 1 note\x20
        P A/C:64|Print <OPERATOR>A.- Missing w 64 on 1 note\x20
        P A/C:34359738367|Print <OPERATOR>A.- Missing w 34359738367 on 1 note\x20
        P A/C:34359738368|?
        P A/C:12A|?
        P A/C:|?
        P A/COPIES 2|?
        P A/X:1|?
        P A/FORMS:NA|Print <OPERATOR>A.- Missing w 1 on 0 note\x20
        P A/F:W/F:NO|Print <OPERATOR>A.- Missing w 1 on 1 note\x20
        P A/F:W|Print <OPERATOR>A.- Missing w 1 on 2 note\x20
        P A/F:N|?
        P A/AFTER:5-JAN-70|Print <OPERATOR>A.- Missing w 1 on 1 after 4 note\x20
        P A/A:31-DEC-2099/A:1-JAN-70|Print <OPERATOR>A.- Missing w 1 on 1 after 0 note\x20
        P A/AFTER:29-FEB-1999|?
        P A/AFTER:1-JAN-2100|?
        P A/JOBNAME:night-1/J:x|Print <OPERATOR>A.- Missing w 1 on 1 job X note\x20
        P A/J:night-1|Print <OPERATOR>A.- Missing w 1 on 1 job NIGHT-1 note\x20
        P A/NOTE:\"say \"\"hi\"\"\"|Print <OPERATOR>A.- Missing w 1 on 1 note say \"hi\"
        P A/N:\"\"|Print <OPERATOR>A.- Missing w 1 on 1 note\x20
        P A/N:\"x\"/N:\"Y z\"|Print <OPERATOR>A.- Missing w 1 on 1 note Y z
        P A/N:\"123456789012345678901234567890123456789\"|Print <OPERATOR>A.- Missing w 1 on 1 note \
123456789012345678901234567890123456789
        P A/N:\"1234567890123456789012345678901234567890\"|?
        P A/N:\"\"\"12345678901234567890123456789012345678\"|Print <OPERATOR>A.- Missing w 1 on 1 note \
\"12345678901234567890123456789012345678";
    try_lines::<Brand, _>(&rt, &rt, Blank::new(1), &store, cases.as_bytes())
}

// 30 switches with their values, the verb, the guide word and the file are 63 fields: one more is the last that fits.
#[test]
fn switches_are_not_too_many(rt: HostRuntime) -> Result<(), Fail> {
    let store = run(&rt, "1:WRITE A.");
    let cases =
        "P A/C:1/C:1/C:1/C:1/C:1/C:1/C:1/C:1/C:1/C:1/C:1/C:1/C:1/C:1/C:1/C:1/C:1/C:1/C:1/C:1\
/C:1/C:1/C:1/C:1/C:1/C:1/C:1/C:1/C:1/C:2|Print <OPERATOR>A.- Missing w 2 on 1 note\x20
        P A/C:1/C:1/C:1/C:1/C:1/C:1/C:1/C:1/C:1/C:1/C:1/C:1/C:1/C:1/C:1/C:1/C:1/C:1/C:1/C:1\
/C:1/C:1/C:1/C:1/C:1/C:1/C:1/C:1/C:1/C:1/C:1|?";
    try_lines::<Brand, _>(&rt, &rt, Blank::new(1), &store, cases.as_bytes())
}

// 10957 is 1-JAN-2000, and 47481 is 31-DEC-2099.
#[test]
fn subcommands_are_added(rt: HostRuntime) -> Result<(), Fail> {
    let store = run(&rt, "1:WRITE A.TXT.2");
    let cases = "DIRECTORY ,|Directory <OPERATOR>-.- Missing wae sub
        DIR,|Directory <OPERATOR>-.- Missing wae sub
        DIRECTORY (OF FILES) A,|Directory <OPERATOR>A.- Missing wae sub
        DIRECTORY A.,|Directory <OPERATOR>A. Missing wae sub
        DIRECTORY ,~|Directory <OPERATOR>-.- Missing wae
        DIRECTORY ,~ ! nothing|Directory <OPERATOR>-.- Missing wae
        DIRECTORY ,~SINCE 1-JAN-2000|Directory <OPERATOR>-.- Missing wae since 10957 sub
        DIRECTORY ,~BEFORE 31-DEC-2099~|Directory <OPERATOR>-.- Missing wae before 47481
        DIRECTORY ,~S 1-JAN-70~B 2-JAN-70~D~|Directory <OPERATOR>-.- Missing wae since 0 before 1 deleted
        DIRECTORY ,~S 1-JAN-70~S 2-JAN-70~|Directory <OPERATOR>-.- Missing wae since 1
        DIRECTORY ,~D~B 9-JAN-70~D~B 3-JAN-70~|Directory <OPERATOR>-.- Missing wae before 2 deleted
        DIRECTORY ,~READ~|Directory <OPERATOR>-.- Missing wae read
        DIRECTORY ,~R~S 1-JAN-70~R~D|Directory <OPERATOR>-.- Missing wae since 0 deleted read sub
        BUILD <X>,|Build X sub
        BUILD <X> ,~|Build X
        BUILD <X>,~GENERATIONS 3|Build X keep 3 sub
        BUILD <X>,~GEN (TO KEEP) 0~|Build X keep 0
        BUILD <X>,~GEN 63~GEN 007~|Build X keep 7";
    try_lines::<Brand, _>(&rt, &rt, Blank::new(1), &store, cases.as_bytes())
}

#[test]
fn a_comment_is_passed_inside_a_line(rt: HostRuntime) -> Result<(), Fail> {
    let store = run(&rt, "1:WRITE FOO.TXT");
    let cases = "DELETE !old! FOO.TXT|Delete <OPERATOR>FOO.TXT Missing wa
        DELETE !old!|?
        DELETE !old FOO.TXT|?";
    try_lines::<Brand, _>(&rt, &rt, Blank::new(1), &store, cases.as_bytes())
}

#[test]
fn a_line_means_deleted_files(rt: HostRuntime) -> Result<(), Fail> {
    let store = run(
        &rt,
        "1:WRITE A.TXT.2
        DELETE A.TXT.2|Ok| <OPERATOR>A.TXT.2 [OK]^M^J",
    );
    let cases = "UNDELETE A.*|Undelete <OPERATOR>A.* Missing wad";
    try_lines::<Brand, _>(&rt, &rt, Blank::new(1), &store, cases.as_bytes())
}
