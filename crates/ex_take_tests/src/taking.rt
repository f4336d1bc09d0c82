// Command files that `take` takes, and lines that the engine takes after a run.
use crate::case::try_cases;
use std::test::Fail;

const TAKES: &str = "# a file that takes itself is taken four times
file L.CMD|INF VER~TAKE L.CMD~
take L.CMD|4096|Stopped(TakeDepth)| EXEC20 1~ EXEC20 1~ EXEC20 1~ EXEC20 1~?TAKE too deep~

# after the end of a file the one around it goes on
file A.CMD|TAKE B.CMD~LOGOUT~
file B.CMD|INF VER~
take B.CMD|4096|Ok| EXEC20 1~
take A.CMD|4096|Logout| EXEC20 1~Logged out~
take B.CMD|4096|none|

# what the lines before a refused one have done stands, and no other line is taken
file A.CMD|BUILD <X>~DEL Z~BUILD <Y>~
file X.CMD|CONNECT <X>~
file Y.CMD|CONNECT <Y>~
take A.CMD|4096|Stopped(NoFile)|?No such file~
take Y.CMD|4096|Stopped(NoDirectory)|?No such directory~
take X.CMD|4096|Ok|

# all files are closed, also where an act is refused
file A.CMD|TAKE B.CMD~INF VER~
file B.CMD|COPY A.CMD B.CMD.1~
take A.CMD|4096|Stopped(FileExists)|?File already exists~

# LOGOUT ends all
file L.CMD|INF VER~LOGOUT~INF VER~
take L.CMD|4096|Logout| EXEC20 1~Logged out~
take L.CMD|4096|none|

# the screen fails in the reply of the second line: the lines before have acted, and those after are not taken
file A.CMD|BUILD <X>~INF VER~INF VER~BUILD <Y>~
file B.CMD|INF VER~
file X.CMD|CONNECT <X>~
file Y.CMD|CONNECT <Y>~
take A.CMD|15|Failed| EXEC20 1~ EXE
take B.CMD|4096|Ok| EXEC20 1~
take Y.CMD|4096|Stopped(NoDirectory)|?No such directory~
take X.CMD|4096|Ok|

# the end of a file is an empty line of subcommands
file B.CMD|BUILD <X>,~GEN 3~
file X.CMD|CONNECT <X>~
take B.CMD|4096|Ok|
take X.CMD|4096|Ok|

# joined lines
file A.CMD|INF -~VER~
take A.CMD|4096|Ok| EXEC20 1~";

// [take]
#[test]
fn takes_files(rt: HostRuntime) -> Result<(), Fail> {
    try_cases(&rt, TAKES)
}

const GOES_ON: &str =
    "# the screen fails in the reply of the second of three lines: the third is the next
file A.CMD|INF VER~INF VER~LOGOUT~
keys TAKE A.CMD\r|28|Err(Screen)|@TAKE A.CMD~ EXEC20 1~ EXE
lines|4096|Ok(())|Logged out~

# where no line waits nothing is done
file A.CMD|INF VER~
lines|4096|Ok(())|
take A.CMD|4096|Ok| EXEC20 1~";

#[test]
fn goes_on_after_a_cut(rt: HostRuntime) -> Result<(), Fail> {
    try_cases(&rt, GOES_ON)
}
