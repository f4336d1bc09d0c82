// Whole runs.
use crate::case::try_cases;
use std::test::Fail;

const SHOWS_THE_PROMPT_AND_THE_END: &str = "screen @{EOL}

keys LOGOUT{CR}
screen @LOGOUT{EOL}Logged out{EOL}
log ..0d 6 D 0.1k10@0-6{LF}
acts 1

keys INF VER X{CR}
screen @INF VER X{EOL}?Not confirmed{EOL}@{EOL}
log ..{LF}0d 9 F25.5@8 0.1k9@0-3 26.0n0@4-4 27.0k4@4-7{LF}

keys D{CR}{^H}
screen @D{EOL}?Ambiguous keyword{EOL}@{EOL}
log 44 1 O{LF}0d 1 F2.0@0{LF}08 0 O{LF}

keys L{CR}{^H}
screen @L{EOL}?Ambiguous keyword{EOL}@{EOL}
log 4c 1 O{LF}0d 1 F2.0@0{LF}08 0 O{LF}

keys INF X{CR}{^H}
screen @INF X{EOL}?Unrecognized keyword{EOL}@INF {EOL}
log ..{LF}0d 5 F1.27@4 0.1k9@0-3 26.0n0@4-4{LF}08 4 O 0.1k9@0-3{LF}

keys INF{^C}LOG{CR}
screen @INF^C{EOL}@LOG{EOL}Logged out{EOL}
log ..{LF}03 0 O{LF}4c 1 O{LF}4f 2 O{LF}47 3 O{LF}0d 3 D 0.1k10@0-3{LF}
acts 1

keys A.B-C  {^W}{^W}{^W}{^W}
screen @A.B-C  {RUB}{RUB}{RUB}{RUB}{RUB}{RUB}{RUB}{BEL}{EOL}
log ..{LF}17 0 O{LF}17 0 O{LF}";

// [run-trace]
#[test]
fn shows_the_prompt_and_the_end(rt: HostRuntime) -> Result<(), Fail> {
    try_cases(&rt, SHOWS_THE_PROMPT_AND_THE_END)
}

const RUNS_OVER_THE_GRAMMAR_OF_THE_EXEC: &str = "keys INF (ab) VER ; x{CR}
screen @INF (ab) VER ; x{EOL} EXEC20 1{EOL}@{EOL}
log ..{LF}0d 16 D 0.1k9@0-3 26.0n1@4-8 27.0k4@9-12{LF}
acts 1

keys DEFINE A1: {CR}
screen @DEFINE A1: {EOL}?Logical name is not defined{EOL}@{EOL}
log ..{LF}0d 11 D 0.1k5@0-6 28.0n0@7-7 29.0h0:2@7-9 30.0t@9-10 31.0n0@11-11{LF}
acts 1

keys DEFINE PS:{CR}
screen @DEFINE PS:{EOL}?Value not accepted{EOL}@{EOL}
log ..{LF}0d 10 F26.29@7 0.1k5@0-6 28.0n0@7-7{LF}

keys REMARK ! not a comment{CR}
screen @REMARK ! not a comment{EOL}@{EOL}
log ..{LF}0d 22 D 0.1k12@0-6 45.0x@7-22{LF}
acts 1

keys T N.TXT{CR}
screen @T N.TXT{EOL}?No such file{EOL}@{EOL}
log ..{LF}0d 7 F23.20@2 0.1k15@0-1 19.0n0@2-2{LF}

keys LO{CR}T N.TXT{CR}K?JOB{CR}
screen @LO{EOL}?Ambiguous keyword{EOL}@T N.TXT{EOL}?No such file{EOL}@K? keyword, none matches{EOL}@KJOB{EOL}
screen Logged out{EOL}
log ..{LF}0d 4 D 0.1k10@0-4{LF}
acts 1

keys LO{CR}KJOB{CR}
screen @LO{EOL}?Ambiguous keyword{EOL}@KJOB{EOL}Logged out{EOL}
log ..{LF}0d 4 D 0.1k10@0-4{LF}
acts 1";

#[test]
fn runs_over_the_grammar_of_the_exec(rt: HostRuntime) -> Result<(), Fail> {
    try_cases(&rt, RUNS_OVER_THE_GRAMMAR_OF_THE_EXEC)
}

const CONNECTS_TO_WHAT_IS_THERE: &str = "keys CONNECT{CR}
screen @CONNECT{EOL}@{EOL}
log ..{LF}0d 7 D 0.1k3@0-7 17.0n0@7-7 18.1D@7-7={LF}
acts 1

# CONNECT is the one command that begins so, and COPY begins as far.
keys CON{CR}
screen @CON{EOL}@{EOL}
log 43 1 O{LF}4f 2 O{LF}4e 3 O{LF}0d 3 D 0.1k3@0-3 17.0n0@3-3 18.1D@3-3={LF}
acts 1

keys CO{CR}CON operator{CR}
screen @CO{EOL}?Ambiguous keyword{EOL}@CON operator{EOL}@{EOL}
log ..{LF}0d 12 D 0.1k3@0-3 17.0n0@4-4 18.0u@4-12{LF}
acts 1

keys CONNECT (TO) <OPERATOR>{CR}
screen @CONNECT (TO) <OPERATOR>{EOL}@{EOL}
log ..{LF}0d 23 D 0.1k3@0-7 17.0n1@8-12 18.1D@13-23{LF}
acts 1

keys CONNECT PS:{CR}
screen @CONNECT PS:{EOL}@{EOL}
log ..{LF}0d 11 D 0.1k3@0-7 17.0n0@8-8 18.1D@8-11{LF}
acts 1";

#[test]
fn connects_to_what_is_there(rt: HostRuntime) -> Result<(), Fail> {
    try_cases(&rt, CONNECTS_TO_WHAT_IS_THERE)
}

const COMPLETES_USERS_AND_DIRECTORIES: &str = "keys CONNECT O{ESC}
screen @CONNECT OPERATOR {EOL}
log ..{LF}1b 17 O 0.1k3@0-7 17.0n0@8-8 18.0u@8-16{LF}

keys CONNECT <o{ESC}
screen @CONNECT <oPERATOR> {EOL}
log ..{LF}1b 19 O 0.1k3@0-7 17.0n0@8-8 18.1D@8-18{LF}

keys CONNECT <O{^F}
screen @CONNECT <OPERATOR> {EOL}
log ..{LF}06 19 O 0.1k3@0-7 17.0n0@8-8 18.1D@8-18{LF}

keys CONNECT X{ESC}
screen @CONNECT X{BEL}{EOL}
log ..{LF}1b 9 O 0.1k3@0-7 17.0n0@8-8{LF}

keys CONNECT O?
screen @CONNECT O? user name{EOL} or directory name{EOL}@CONNECT O{EOL}
log ..{LF}3f 9 O 0.1k3@0-7 17.0n0@8-8{LF}";

#[test]
fn completes_users_and_directories(rt: HostRuntime) -> Result<(), Fail> {
    try_cases(&rt, COMPLETES_USERS_AND_DIRECTORIES)
}

const CONNECTS_TO_NOTHING_ELSE: &str = "keys CONNECT <X>{CR}
screen @CONNECT <X>{EOL}?No such directory{EOL}@{EOL}
log ..{LF}0d 11 F21.18@8 0.1k3@0-7 17.0n0@8-8{LF}

# The refusal of the last block is told, also of a name that no user has.
keys CONNECT X{CR}
screen @CONNECT X{EOL}?No such directory{EOL}@{EOL}
log ..{LF}0d 9 F21.18@8 0.1k3@0-7 17.0n0@8-8{LF}

keys CONNECT OPERATOR:{CR}
screen @CONNECT OPERATOR:{EOL}?No such logical name{EOL}@{EOL}
log ..{LF}0d 17 F20.18@8 0.1k3@0-7 17.0n0@8-8{LF}

keys CONNECT TTY:{CR}
screen @CONNECT TTY:{EOL}?Device not allowed{EOL}@{EOL}
log ..{LF}0d 12 F19.18@8 0.1k3@0-7 17.0n0@8-8{LF}

keys CONNECT <OPER*>{CR}
screen @CONNECT <OPER*>{EOL}?Wildcard not allowed{EOL}@{EOL}
log ..{LF}0d 15 F18.18@8 0.1k3@0-7 17.0n0@8-8{LF}

keys CONNECT <OPERATOR>A{CR}
screen @CONNECT <OPERATOR>A{EOL}?Invalid file specification{EOL}@{EOL}
log ..{LF}0d 19 F15.18@8 0.1k3@0-7 17.0n0@8-8{LF}

keys CONNECT OPERATOR X{CR}
screen @CONNECT OPERATOR X{EOL}?Not confirmed{EOL}@{EOL}
log ..{LF}0d 18 F25.5@17 0.1k3@0-7 17.0n0@8-8 18.0u@8-16{LF}";

#[test]
fn connects_to_nothing_else(rt: HostRuntime) -> Result<(), Fail> {
    try_cases(&rt, CONNECTS_TO_NOTHING_ELSE)
}

const COMPLETES_WHAT_WAS_BEGUN: &str = "keys INF{ESC}
screen @INFORMATION (ABOUT) {EOL}
log 49 1 O{LF}4e 2 O{LF}46 3 O{LF}1b 20 O 0.1k9@0-11 26.0n1@12-19{LF}

keys INF{ESC}V{ESC}
screen @INFORMATION (ABOUT) VERSION {EOL}
log ..{LF}1b 28 O 0.1k9@0-11 26.0n1@12-19 27.0k4@20-27{LF}

keys REM{ESC}
screen @REMARK {EOL}
log ..{LF}1b 7 O 0.1k12@0-6{LF}

keys DEFINE A1{ESC}
screen @DEFINE A1 {EOL}
log ..{LF}1b 10 O 0.1k5@0-6 28.0n0@7-7 29.0h0:2@7-9{LF}

# The guide word of CONNECT, and then its default.
keys CON{ESC}{ESC}{CR}
screen @CONNECT (TO DIRECTORY) <OPERATOR> {EOL}@{EOL}
log ..{LF}1b 23 O 0.1k3@0-7 17.0n1@8-22{LF}1b 34 O 0.1k3@0-7 17.0n1@8-22 18.1D@23-33{LF}
log 0d 34 D 0.1k3@0-7 17.0n1@8-22 18.1D@23-33{LF}
acts 1

# What was completed is edited and confirmed as what was typed.
keys logo{ESC}{^W}{ESC}{^U}k{ESC}{CR}
screen @logoUT {RUB}{RUB}{RUB}{RUB}{RUB}{RUB}{RUB}{BEL}{BEL}kJOB {EOL}Logged out{EOL}
log ..{LF}1b 5 O 0.1k10@0-4{LF}0d 5 D 0.1k10@0-4{LF}
acts 1";

#[test]
fn completes_what_was_begun(rt: HostRuntime) -> Result<(), Fail> {
    try_cases(&rt, COMPLETES_WHAT_WAS_BEGUN)
}

const RINGS_WHERE_NOTHING_IS_CERTAIN: &str = "keys L{ESC}
screen @L{BEL}{EOL}
log 4c 1 O{LF}1b 1 O{LF}

keys {ESC}
screen @{BEL}{EOL}
log 1b 0 O{LF}

keys X{ESC}
screen @X{BEL}{EOL}
log 58 1 O{LF}1b 1 O{LF}

# A part of a file name is what control-F completes, and no keyword has one.
keys INF{^F}
screen @INF{BEL}{EOL}
log ..{LF}06 3 O{LF}";

#[test]
fn rings_where_nothing_is_certain(rt: HostRuntime) -> Result<(), Fail> {
    try_cases(&rt, RINGS_WHERE_NOTHING_IS_CERTAIN)
}

const SHOWS_WHAT_MAY_COME: &str = "keys DEFINE (LOGICAL NAME) ?
screen @DEFINE (LOGICAL NAME) ? logical name{EOL}@DEFINE (LOGICAL NAME) {EOL}
log ..{LF}3f 22 O 0.1k5@0-6 28.0n1@7-21{LF}

keys CONNECT ?
screen @CONNECT ? guide word (TO DIRECTORY){EOL} or user name{EOL} or directory name{EOL}@CONNECT {EOL}
log ..{LF}3f 8 O 0.1k3@0-7{LF}

keys CONNECT <?
screen @CONNECT <? directory name{EOL}@CONNECT <{EOL}
log ..{LF}3f 9 O 0.1k3@0-7 17.0n0@8-8{LF}

keys INF ! x?
screen @INF ! x? comment{EOL}@INF ! x{EOL}
log ..{LF}3f 7 O 0.1k9@0-3{LF}

keys X ?
screen @X ? Unrecognized keyword{EOL}@X {EOL}
log ..{LF}3f 2 F1.0@0{LF}

keys INF ?
screen @INF ? guide word (ABOUT){EOL} or one of the following:{EOL}  DIRECTORY{EOL}  LOGICAL-NAMES{EOL}
screen   OUTPUT-REQUESTS{EOL}
screen   VERSION{EOL}@INF {EOL}
log ..{LF}3f 4 O 0.1k9@0-3{LF}

keys INF V?ER{CR}
screen @INF V? one of the following:{EOL}  VERSION{EOL}@INF VER{EOL} EXEC20 1{EOL}@{EOL}
log ..{LF}0d 7 D 0.1k9@0-3 26.0n0@4-4 27.0k4@4-7{LF}
acts 1

keys K?JOB{CR}
screen @K? keyword, none matches{EOL}@KJOB{EOL}Logged out{EOL}
log 4b 1 O{LF}3f 1 O{LF}4a 2 O{LF}4f 3 O{LF}42 4 O{LF}0d 4 D 0.1k10@0-4{LF}
acts 1";

#[test]
fn shows_what_may_come(rt: HostRuntime) -> Result<(), Fail> {
    try_cases(&rt, SHOWS_WHAT_MAY_COME)
}

const PUTS_IN_WHAT_FITS: &str = "keys {235* }INF{ESC}
screen @{235* }INFORMATION (ABOUT) {EOL}
log ..{LF}1b 255 O 0.1k9@235-246 26.0n1@247-254{LF}

keys {236* }INF{ESC}
screen @{236* }INF{BEL}{EOL}
log ..{LF}1b 239 O{LF}";

#[test]
fn puts_in_what_fits(rt: HostRuntime) -> Result<(), Fail> {
    try_cases(&rt, PUTS_IN_WHAT_FITS)
}

const LOGS_EACH_KEY_WHERE_THE_WORDS_ASK_FOR_IT: &str = "keys INF VER{CR}LOG{DEL}G{CR}
screen @INF VER{EOL} EXEC20 1{EOL}@LOG{RUB}G{EOL}Logged out{EOL}
log 49 1 O{LF}4e 2 O{LF}46 3 O{LF}20 4 O 0.1k9@0-3{LF}56 5 O 0.1k9@0-3 26.0n0@4-4{LF}
log 45 6 O 0.1k9@0-3 26.0n0@4-4{LF}52 7 O 0.1k9@0-3 26.0n0@4-4{LF}0d 7 D 0.1k9@0-3 26.0n0@4-4 27.0k4@4-7{LF}
log 4c 1 O{LF}4f 2 O{LF}47 3 O{LF}7f 2 O{LF}47 3 O{LF}0d 3 D 0.1k10@0-3{LF}
acts 2

words -n,OUT
keys INF VER{CR}LOG{DEL}G{CR}
screen @INF VER{EOL} EXEC20 1{EOL}@LOG{RUB}G{EOL}Logged out{EOL}
acts 2";

#[test]
fn logs_each_key_where_the_words_ask_for_it(rt: HostRuntime) -> Result<(), Fail> {
    try_cases(&rt, LOGS_EACH_KEY_WHERE_THE_WORDS_ASK_FOR_IT)
}

const REFUSES_A_KEY_PAST_A_FULL_LINE: &str = "keys {256*A}
screen @{255*A}{BEL}{EOL}
log ..{LF}41 255 O{LF}41 255 O{LF}";

#[test]
fn refuses_a_key_past_a_full_line(rt: HostRuntime) -> Result<(), Fail> {
    try_cases(&rt, REFUSES_A_KEY_PAST_A_FULL_LINE)
}

const TAKES_A_MOMENT_FOR_EACH_LINE_THAT_ACTS: &str = "keys INF VER{CR}{CR}{LF}X{CR}LOG{CR}
screen @INF VER{EOL} EXEC20 1{EOL}@{EOL}@{EOL}@X{EOL}?Unrecognized keyword{EOL}@LOG{EOL}Logged out{EOL}
log ..{LF}0d 0 D{LF}0a 0 D{LF}58 1 O{LF}0d 1 F1.0@0{LF}4c 1 O{LF}4f 2 O{LF}47 3 O{LF}0d 3 D 0.1k10@0-3{LF}
acts 4";

#[test]
fn takes_a_moment_for_each_line_that_acts(rt: HostRuntime) -> Result<(), Fail> {
    try_cases(&rt, TAKES_A_MOMENT_FOR_EACH_LINE_THAT_ACTS)
}

const LEAVES_THE_KEYS_BEHIND_LOGOUT: &str = "keys LOGOUT{CR}INF VER{CR}
screen @LOGOUT{EOL}Logged out{EOL}
log ..{LF}0d 6 D 0.1k10@0-6{LF}
left INF VER{CR}
acts 1";

#[test]
fn leaves_the_keys_after_logout(rt: HostRuntime) -> Result<(), Fail> {
    try_cases(&rt, LEAVES_THE_KEYS_BEHIND_LOGOUT)
}

const CONTINUES_LINES: &str = "keys INF -{CR}VER{CR}
screen @INF -{EOL}VER{EOL} EXEC20 1{EOL}@{EOL}
log ..2d 5 O 0.1k9@0-3 26.0n0@4-4{LF}0d 5 O 0.1k9@0-3{LF}56 6 O 0.1k9@0-3 26.0n0@5-5{LF}
log 45 7 O 0.1k9@0-3 26.0n0@5-5{LF}52 8 O 0.1k9@0-3 26.0n0@5-5{LF}
log 0d 8 D 0.1k9@0-3 26.0n0@5-5 27.0k4@5-8{LF}
acts 1

keys INF -{CR}{DEL}V
screen @INF -{EOL}{EOL}@INF V{EOL}
log ..7f 4 O 0.1k9@0-3{LF}56 5 O 0.1k9@0-3 26.0n0@4-4{LF}

# A REMARK that is continued acts once, and a hyphen alone makes an empty line.
keys REMARK a -{CR}b{CR}-{CR}{CR}
screen @REMARK a -{EOL}b{EOL}@-{EOL}{EOL}@{EOL}
log ..0d 11 D 0.1k12@0-6 45.0x@7-11{LF}2d 1 O{LF}0d 1 O{LF}0d 1 D{LF}
acts 2";

#[test]
fn continues_lines(rt: HostRuntime) -> Result<(), Fail> {
    try_cases(&rt, CONTINUES_LINES)
}
