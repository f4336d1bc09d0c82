// The words of the program.
use crate::case::try_cases;
use std::test::Fail;

// Words that ask for nothing, those of a run in a line, with commas between them; `{}` is no word.
const OTHER: &str = "{}
-w
-n
OUT
-n,-x
-w,-n
-w,OUT
-n,
-N,OUT
-n,OUT,-w
-n,-w,OUT
-W,-n,OUT
-w,-n,
-w,-n,OUT,X
A,A
,OUT
IN,
IN,-n
-w,A,A
IN,OUT,-w
IN,-n,OUT
-w,-n,OUT,X,Y
-g
-g,
-g,0
-g,000000
-g,100001
-g,0000001
-g,-1
-g,+1
-g,1a
-g,1,2
-w,-g,1
-G,1
1,-g";

// Nothing else is touched.
const REFUSED: &str = "keys LOG{CR}
status Usage
screen Usage: exec20 [-w] IN OUT | exec20 [-w] -n OUT | exec20 -g N{EOL}
out none
left LOG{CR}";

// [usage]
#[test]
fn shows_the_usage_of_other_words(rt: HostRuntime) -> Result<(), Fail> {
    for words in OTHER.lines() {
        refuse(&rt, words)?;
    }
    Ok(())
}

fn refuse(runtime: &HostRuntime, words: &str) -> Result<(), Fail> {
    let case = format!(in runtime.alloc(); "words {words}\n{REFUSED}")?;
    try_cases(runtime, case.as_str())
}

const LONG: &str = "words -n,{255*A}
screen @{EOL}
out elsewhere

words -n,{256*A}
status Usage
screen Usage: exec20 [-w] IN OUT | exec20 [-w] -n OUT | exec20 -g N{EOL}
out none";

#[test]
fn takes_words_of_at_most_255_bytes(rt: HostRuntime) -> Result<(), Fail> {
    try_cases(&rt, LONG)
}
