// The words and the kinds of lines, by example.
use crate::cases::{given, is_wanted};
use cm_synopsis::{Word, line_kind, words};
use std::alloc::Global;
use std::process::Abort;
use std::test::Fail;

// A line, and where its words begin and end.
const WORDS: &str = "\
~
   ~
SHOW~0-4;
 SHOW  ROUTE ~1-5;7-12;
SHOW\tROUTE\r~0-4;5-10;
[A]~0-1;1-2;2-3;
<A|B>~0-1;1-2;2-3;3-4;4-5;
{/A|/B}~0-1;1-3;3-4;4-6;6-7;
(TO FILE) X~0-9;10-11;
A(TO)B~0-1;1-5;5-6;
(TO~0-3;
net:ipv4/len]~0-12;12-13;
peer:<ipv4|word> AS~0-16;17-19;
peer: <word>~0-5;6-7;7-11;11-12;
path:[A-Z <>|]..~0-14;14-16;
path:[A-Z~0-9;
peer:<word~0-10;
[/MODE: m:modes]~0-1;1-7;8-15;15-16;
A -- b~0-1;2-4;5-6;
)~0-1;
a:b:[c]~0-7;";

// A line, and what it is.
const KINDS: &str = "\
~Empty
 \t\r~Empty
#~Remark
  # list~Remark
prompt~Prompt
prompt ROUTER>~Prompt
list speeds 10 100~Names
list\tspeeds~Names
help SHOW -- what there is~Help
 list~Command
lists A~Command
LIST A~Command
list[A]~Command
promp~Command
SHOW # no remark~Command
-- help alone~Command";

fn shown(alloc: Global, words: &[Word]) -> Result<String, Fail> {
    let mut text = String::new(alloc);
    for word in words {
        text.push_str(format!(in alloc; "{}-{};", word.start, word.end)?.as_str())?;
    }
    Ok(text)
}

fn cuts(rt: &impl Abort, alloc: Global, case: &str) -> Result<(), Fail> {
    let found = words(alloc, given(rt, case).as_bytes())?;
    is_wanted(rt, case, shown(alloc, &found)?.as_str());
    Ok(())
}

fn tells(rt: &impl Abort, alloc: Global, case: &str) -> Result<(), Fail> {
    let kind = line_kind(given(rt, case).as_bytes());
    is_wanted(rt, case, format!(in alloc; "{kind:?}")?.as_str());
    Ok(())
}

#[test]
fn cuts_lines_into_words(rt: HostRuntime) -> Result<(), Fail> {
    for case in WORDS.split('\n') {
        cuts(&rt, rt.alloc(), case)?;
    }
    Ok(())
}

#[test]
fn tells_what_a_line_is(rt: HostRuntime) -> Result<(), Fail> {
    for case in KINDS.split('\n') {
        tells(&rt, rt.alloc(), case)?;
    }
    Ok(())
}
