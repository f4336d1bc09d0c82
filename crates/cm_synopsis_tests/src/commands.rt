// Whole commands and their faults, by example.
use crate::cases::{given, is_wanted};
use crate::parts::part_text;
use cm_synopsis::{Command, Fault, read_command};
use cm_text::Name;
use std::alloc::Global;
use std::process::Abort;
use std::test::Fail;

// A line under the lists `interfaces` and `speeds`, its parts, and its help.
const COMMANDS: &str = "\
SHOW~keyword SHOW;
 SHOW  --  all of it \t~keyword SHOW; -- all of it
A -- b -- c~keyword A; -- b -- c
A --[B]~keyword A; -- [B]
A --b~keyword A;keyword --b;
COPY x:quoted (TO) y:quoted -- copies~keyword COPY;field x: Quoted;guide TO;field y: Quoted; -- copies
A [/B /M: m:speeds]~keyword A;open Optional;switch B;lead M;field m: Listed(1);close Optional;
A x:word ..~keyword A;field x: Word;again;
A x:word 1-5~keyword A;field x: Word;keyword 1-5;
A x:number 1-5 ..~keyword A;field x: Number;range 1 5;again;
A x:<word|number> 1-5~keyword A;field x: Word Number;range 1 5;
A x:number B 1-5~keyword A;field x: Number;keyword B;keyword 1-5;
A <B|C>~keyword A;open Choice;keyword B;or;keyword C;close Choice;
A <x:word|[B]>~keyword A;open Choice;field x: Word;or;open Optional;keyword B;close Optional;close Choice;
A {B|/C|/D: x:word}~keyword A;open AnyOrder;keyword B;or;switch C;or;lead D;field x: Word;close AnyOrder;
A x:rest~keyword A;field x: Rest;
A x:rest -- b~keyword A;field x: Rest; -- b
A <B x:rest|C>~keyword A;open Choice;keyword B;field x: Rest;or;keyword C;close Choice;
[A]~open Optional;keyword A;close Optional;";

// A line, and its first fault: the place, and the reason.
const FAULTS: &str = "\
~0 NoPart
   ~0 NoPart
  -- help~2 NoPart
--~0 NoPart
A --~2 NoHelp
A -- \t ~2 NoHelp
A -- b\u{1}c~6 BadByte
A b\u{1}c~2 BadByte
A B/C~2 BadWord
A x:none~2 UnknownKind
A x:number 5-1~11 BadRange
A (TO~2 OpenGuide
..~0 NoField
A ..~2 NoField
A (TO) ..~7 NoField
A x:word .. ..~12 NoField
A /M: B~6 NoField
A [/M:]~6 NoField
A /M:~2 NoField
A [/M: -- b~3 NoField
A ]~2 NotOpen
A [B>~4 NotOpen
A <B|[C>]~7 NotOpen
A <B|]~5 NotOpen
A | B~2 NoBar
A [B|C]~4 NoBar
A <[B|C]>~5 NoBar
A []~3 EmptyBracket
A <|B>~3 EmptyBracket
A <B|>~5 EmptyBracket
A {/B||/C}~6 EmptyBracket
A {x:word|/B}~3 NotOption
A {/B|(TO) C}~6 NotOption
A {[B]|/C}~3 NotOption
A x:rest B~9 NotLast
A x:rest ..~9 NotLast
A x:<number|rest> 1-2~18 NotLast
A [x:rest [B]]~10 NotLast
A [B~2 NotClosed
A [<B~3 NotClosed
A [B <C>~2 NotClosed
A [B --~2 NotClosed
A ] B/C~2 NotOpen
A B/C ]~2 BadWord
A [[[[[[[[[[[[[[[[[B~18 DeepBracket
A [[[[[[[[[[[[[[[[B~17 NotClosed";

pub(crate) fn command_text(alloc: Global, command: &Command) -> Result<String, Fail> {
    let mut text = String::new(alloc);
    for part in command.parts.iter() {
        text.push_str(part_text(alloc, part)?.as_str())?;
        text.push_str(";")?;
    }
    if !command.help.is_empty() {
        text.push_str(" -- ")?;
    }
    for byte in command.help.iter() {
        text.push(char::from(*byte))?;
    }
    Ok(text)
}

fn shown(alloc: Global, read: &Result<Command, Fault>) -> Result<String, Fail> {
    match read {
        Ok(command) => command_text(alloc, command),
        Err(fault) => Ok(format!(in alloc; "{} {:?}", fault.place, fault.reason)?),
    }
}

fn reads(rt: &impl Abort, alloc: Global, case: &str) -> Result<(), Fail> {
    let lists = [Name::new("interfaces"), Name::new("speeds")];
    let read = read_command(alloc, &lists, given(rt, case).as_bytes())?;
    is_wanted(rt, case, shown(alloc, &read)?.as_str());
    Ok(())
}

#[test]
fn reads_commands(rt: HostRuntime) -> Result<(), Fail> {
    for case in COMMANDS.split('\n') {
        reads(&rt, rt.alloc(), case)?;
    }
    Ok(())
}

#[test]
fn tells_faults(rt: HostRuntime) -> Result<(), Fail> {
    for case in FAULTS.split('\n') {
        reads(&rt, rt.alloc(), case)?;
    }
    Ok(())
}
