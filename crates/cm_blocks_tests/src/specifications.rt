// What texts say as file specifications, and which are logical names.
ghost use Rattle.std.specs.Prelude.{length};
ghost use Rattle.cm_files.specs.Spec.{IsPartOf};

use crate::cases::{Subject, debug_text, hold};
use cm_fields::{Span, Spec};
use cm_files::{SpecFault, is_logical_name, part, read_spec};
use cm_text::LINE_LIMIT;
use std::alloc::Global;
use std::test::Fail;

// A part of a text, where it is given.
fn part_of(text: &[u8], place: Option<Span>) -> Result<Option<&str>, Fail>
    requires { IsPartOf (length text.now) place }
{
    match place {
        Some(place) => Ok(Some(str::from_utf8(part(text, place))?)),
        None => Ok(None),
    }
}

// The device, the directory, the name and the type.
struct Parts;

impl Subject for Parts {
    fn answer(&self, alloc: Global, given: &str) -> Result<String, Fail> {
        let text = given.as_bytes();
        if text.len() > LINE_LIMIT {
            return Err(Fail::new("a text is too long"));
        }
        let spec = read_spec(text)?;
        let device = part_of(text, spec.device)?;
        let directory = part_of(text, spec.directory)?;
        let name = part_of(text, spec.name)?;
        let kind = part_of(text, spec.kind)?;
        debug_text(alloc, &(device, directory, name, kind))
    }
}

const PARTS: &str = "A => (None, None, Some(\"A\"), None)
A. => (None, None, Some(\"A\"), Some(\"\"))
A.B => (None, None, Some(\"A\"), Some(\"B\"))
A.B. => (None, None, Some(\"A\"), Some(\"B\"))
A..1 => (None, None, Some(\"A\"), Some(\"\"))
PS: => (Some(\"PS\"), None, None, None)
<A.B> => (None, Some(\"A.B\"), None, None)
PS:<A> => (Some(\"PS\"), Some(\"A\"), None, None)
x-1:<S*.%>$_*.T%.0 => (Some(\"x-1\"), Some(\"S*.%\"), Some(\"$_*\"), Some(\"T%\"))
*.*.* => (None, None, Some(\"*\"), Some(\"*\"))";

#[test]
fn parts_are_told(rt: HostRuntime) -> Result<(), Fail> {
    hold(rt.alloc(), &Parts, PARTS)
}

fn read(text: &str) -> Result<Result<Spec, SpecFault>, Fail> {
    if text.len() > LINE_LIMIT {
        return Err(Fail::new("a text is too long"));
    }
    Ok(read_spec(text.as_bytes()))
}

struct Generations;

impl Subject for Generations {
    fn answer(&self, alloc: Global, given: &str) -> Result<String, Fail> {
        debug_text(alloc, &read(given)??.generation)
    }
}

const GENERATIONS: &str = "A => Missing
A.B => Missing
A.B. => Missing
A.B.0 => Highest
A.B.00 => Highest
A.B.1 => Number(1)
A.B.007 => Number(7)
A.B.131071 => Number(131071)
A.B.-1 => Next
A.B.-2 => Lowest
A.B.-3 => All
A.B.* => All";

#[test]
fn generations_are_told(rt: HostRuntime) -> Result<(), Fail> {
    hold(rt.alloc(), &Generations, GENERATIONS)
}

// A fault, and the name that it is shown by.
struct Faults;

impl Subject for Faults {
    fn answer(&self, alloc: Global, given: &str) -> Result<String, Fail> {
        let fault = read(given)?.err().ok_or("a text is refused")?;
        Ok(format!(in alloc; "{fault:?} {fault}")?)
    }
}

const FAULTS: &str = " => Shape Shape
:A => Shape Shape
A:B:C => Shape Shape
A*:B => Shape Shape
<A => Shape Shape
<> => Shape Shape
<.A> => Shape Shape
<A..B> => Shape Shape
<A.> => Shape Shape
<A>B> => Shape Shape
A<B> => Shape Shape
.B => Shape Shape
PS:.B => Shape Shape
A.B.1.2 => Shape Shape
A.B.1. => Shape Shape
A B => Shape Shape
A-NAME-OF-FORTY-BYTES-IN-ITS-LENGTH-OF-1.B.1.2 => Shape Shape
A-NAME-OF-FORTY-BYTES-IN-ITS-LENGTH-OF-1 => NameLong NameLong
A.A-NAME-OF-FORTY-BYTES-IN-ITS-LENGTH-OF-1.X => NameLong NameLong
A-NAME-OF-FORTY-BYTES-IN-ITS-LENGTH-OF-1:A => NameLong NameLong
<A.NAME-OF-FORTY-BYTES-IN-ITS-LENGTH-OF-1>A => NameLong NameLong
A.B.X => GenRange GenRange
A.B.1X => GenRange GenRange
A.B.-0 => GenRange GenRange
A.B.-4 => GenRange GenRange
A.B.% => GenRange GenRange
A.B.** => GenRange GenRange
A.B.131072 => GenRange GenRange
A.B.18446744073709551617 => GenRange GenRange";

#[test]
fn faults_come_in_their_order(rt: HostRuntime) -> Result<(), Fail> {
    hold(rt.alloc(), &Faults, FAULTS)
}

struct LogicalNames;

impl Subject for LogicalNames {
    fn answer(&self, alloc: Global, given: &str) -> Result<String, Fail> {
        debug_text(alloc, &is_logical_name(given.as_bytes()))
    }
}

const LOGICAL_NAMES: &str = " => false
A => true
sys-1$_ => true
1A => false
$A => false
A.B => false
A B => false
PS => false
ps => false
PSI => true
DSK => false
dSK => false
TTY => false
tty => false
TT => true
A-NAME-OF-THIRTY-NINE-BYTES-IN-LENGTH-1 => true
A-NAME-OF-FORTY-BYTES-IN-ITS-LENGTH-OF-1 => false";

#[test]
fn logical_names_are_no_devices(rt: HostRuntime) -> Result<(), Fail> {
    hold(rt.alloc(), &LogicalNames, LOGICAL_NAMES)
}
