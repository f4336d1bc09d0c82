// The places of languages that are read from texts, by example. In a case `^` ends a line of the text.
use crate::cases::{given, is_wanted};
use crate::places::shown;
use cm_language::places_of;
use cm_synopsis::{Command, Way, read_language, way_of};
use std::alloc::Global;
use std::process::Abort;
use std::test::Fail;

const TEXTS: &str = "\
A [B] C~0.0 > 0.1@1;0.1 > 0.2@2 0.3@3;0.2 > 0.3@3;0.3 >;
A {/B|/C}~0.0 > 0.1@1;0.1 > 0.2@2 0.3@3;0.2 > 0.2@2 0.3@3;0.3 > 0.2@2 0.3@3;
A B^A [B] C~0.0 1.0 > 0.1@1;0.1 1.1 > 0.2@2 1.3@3;0.2 1.2 > 1.3@3;1.3 >;
list a^SET x:a ..^# more^SET x:a B~0.0 1.0 > 0.1@1;0.1 1.1 > 0.2@2;0.2 1.2 > 0.2@3 1.3@4;0.2 > 0.2@3;1.3 >;";

fn ways_of(alloc: Global, commands: &[Command]) -> Result<Vec<Way>, Fail> {
    let mut ways = Vec::new(alloc);
    for command in commands {
        ways.push(way_of(alloc, &command.parts)?)?;
    }
    Ok(ways)
}

fn leads(rt: &impl Abort, alloc: Global, case: &str) -> Result<(), Fail> {
    let mut text = Vec::new(alloc);
    for byte in given(rt, case).as_bytes() {
        text.push(if *byte == b'^' { b'\n' } else { *byte })?;
    }
    let language = read_language(alloc, &text)?.ok().ok_or("a fault")?;
    let ways = ways_of(alloc, language.commands())?;
    let places = places_of(alloc, language.commands(), &ways)
        .ok()
        .ok_or("no places")?;
    is_wanted(rt, case, shown(alloc, &places)?.as_str());
    Ok(())
}

#[test]
fn makes_places_of_texts(rt: HostRuntime) -> Result<(), Fail> {
    for case in TEXTS.split('\n') {
        leads(&rt, rt.alloc(), case)?;
    }
    Ok(())
}
