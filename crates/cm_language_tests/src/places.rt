// The places of languages, by example.
use crate::cases::{given, is_wanted};
use crate::language::{empty_way, read};
use cm_language::{Place, PlacesError, places_of};
use cm_synopsis::{Command, Link, Step, Way, read_part};
use std::alloc::Global;
use std::process::Abort;
use std::test::Fail;

// A language, and its places: the positions of each, and the first position and the place of each exit.
const PLACES: &str = "\
~0.0 >;
A~0.0 > 0.1@1;0.1 >;
A B;A C~0.0 1.0 > 0.1@1;0.1 1.1 > 0.2@2 1.2@3;0.2 >;1.2 >;
A C;B C~0.0 1.0 > 0.1@1 1.1@2;0.1 > 0.2@3;1.1 > 1.2@4;0.2 >;1.2 >;
A;B;a~0.0 1.0 2.0 > 0.1@1 1.1@2;0.1 2.1 >;1.1 >;
A B;A~0.0 1.0 > 0.1@1;0.1 1.1 > 0.2@2;0.2 >;
SHOW;show~0.0 1.0 > 0.1@1;0.1 1.1 >;
(to);(TO)~0.0 1.0 > 0.1@1 1.1@2;0.1 >;1.1 >;
(to);(to)~0.0 1.0 > 0.1@1;0.1 1.1 >;
/A;/a;/A:~0.0 1.0 2.0 > 0.1@1 2.1@2;0.1 1.1 >;2.1 >;
A;/A~0.0 1.0 > 0.1@1 1.1@2;0.1 >;1.1 >;
n:word;n:word~0.0 1.0 > 0.1@1;0.1 1.1 >;
n:word;m:word~0.0 1.0 > 0.1@1 1.1@2;0.1 >;1.1 >;
n:word;N:word~0.0 1.0 > 0.1@1 1.1@2;0.1 >;1.1 >;
n:word;n:quoted~0.0 1.0 > 0.1@1 1.1@2;0.1 >;1.1 >;
n:<word|date>;n:<date|word>~0.0 1.0 > 0.1@1 1.1@2;0.1 >;1.1 >;
n:<word|date>;n:word~0.0 1.0 > 0.1@1 1.1@2;0.1 >;1.1 >;
n:[ab];n:[a-b]~0.0 1.0 > 0.1@1;0.1 1.1 >;
n:[a];n:[b]~0.0 1.0 > 0.1@1 1.1@2;0.1 >;1.1 >;
n:number=1-5;n:number=1-5~0.0 1.0 > 0.1@1;0.1 1.1 >;
n:number=1-5;n:number=1-6~0.0 1.0 > 0.1@1 1.1@2;0.1 >;1.1 >;
n:number=1-5;n:number~0.0 1.0 > 0.1@1 1.1@2;0.1 >;1.1 >;
n:word 1-1~0.0 > 0.1@1;0.1 > 0.1@1;
A B 0-2~0.0 > 0.1@1 0.2@2;0.1 > 0.2@2;0.2 >;
A 0-1~0.0 > 0.1@1;0.1 >;
A !A 0-2~0.0 > 0.1@1;0.1 0.2 >;
A B 2-0 1-1~0.0 > 0.1@1;0.1 > 0.2@2 0.1@1;0.2 > 0.0@0;
A 1-7~0.0 > 0.1@1;0.1 > 0.7@2;0.7 >;";

fn put_place(alloc: Global, place: &Place, text: &mut String) -> Result<(), Fail> {
    for position in &place.positions {
        text.push_str(format!(in alloc; "{}.{} ", position.command, position.step)?.as_str())?;
    }
    text.push_str(">")?;
    for exit in &place.exits {
        let (position, place) = (exit.position, exit.place);
        text.push_str(format!(in alloc;
            " {}.{}@{place}",
            position.command, position.step
        )?.as_str())?;
    }
    text.push_str(";")?;
    Ok(())
}

pub(crate) fn shown(alloc: Global, places: &[Place]) -> Result<String, Fail> {
    let mut text = String::new(alloc);
    for place in places {
        put_place(alloc, place, &mut text)?;
    }
    Ok(text)
}

fn makes(rt: &impl Abort, alloc: Global, case: &str) -> Result<(), Fail> {
    let mut commands = Vec::new(alloc);
    let mut ways = Vec::new(alloc);
    read(alloc, &mut commands, &mut ways, given(rt, case))?;
    let places = places_of(alloc, &commands, &ways).ok().ok_or("no places")?;
    is_wanted(rt, case, shown(alloc, &places)?.as_str());
    Ok(())
}

#[test]
fn makes_places(rt: HostRuntime) -> Result<(), Fail> {
    for case in PLACES.split('\n') {
        makes(&rt, rt.alloc(), case)?;
    }
    Ok(())
}

// A way of so many steps, each behind the one before, that all read the first part.
fn chain(alloc: Global, steps: usize) -> Result<Way, Fail> {
    let mut way = empty_way(alloc);
    for step in 0..steps {
        way.steps.push(Step {
            part: 0,
            range: None,
            option: false,
        })?;
        way.links.push(Link {
            from: step,
            to: step + 1,
        })?;
    }
    Ok(way)
}

// How many places a command of so many steps has, or why none.
fn count(alloc: Global, steps: usize) -> Result<Result<usize, PlacesError>, Fail> {
    let part = read_part(&[], false, b"A").ok().ok_or("no part")?;
    let mut parts = Vec::new(alloc);
    parts.push(part)?;
    let commands = [Command {
        parts,
        help: Vec::new(alloc),
    }];
    let ways = [chain(alloc, steps)?];
    match places_of(alloc, &commands, &ways) {
        Ok(places) => Ok(Ok(places.len())),
        Err(error) => Ok(Err(error)),
    }
}

#[test]
fn has_a_limit_of_places(rt: HostRuntime) -> Result<(), Fail> {
    assert_eq!(rt; count(rt.alloc(), 1022)?, Ok(1023));
    assert_eq!(rt; count(rt.alloc(), 1023)?, Err(PlacesError::TooMany));
    Ok(())
}
