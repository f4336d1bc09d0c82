// The texts of the grammars.

pub(crate) const EXEC_NODES: &str = "\
0 confirm > 5 / key 0 > 5 Verb
1 noise FROM > 2
2 token TTY: > 3
3 noise TO > 4
17 noise TO DIRECTORY > 18
18 number > 5 / word > 5 = OPERATOR
23 noise OF FILES > 24
24 comma > 5 / confirm > 5
26 noise ABOUT > 27
27 key 1 > 5 What
28 noise LOGICAL NAME > 29
29 hook 0 > 30
30 token : > 31
31 noise AS > 32
37 noise FILES > 38
38 word > 39
39 switch 2 > 5 / confirm > 5
41 number > 39
43 word > 39
44 quoted > 39
45 raw text > 5";

// The commands, what INFORMATION tells of, and the switches of PRINT.
pub(crate) const EXEC_TABLES: &str = "\
APPEND 1 6
BUILD 2 33
CONNECT 3 17
COPY 4 1
DEFINE 5 28
DELETE 6 13
DIRECTORY 7 23
EXPUNGE 8 35
INFORMATION 9 26
KJOB 10 5 Invisible
L 0 5 NoRecognise
LO 0 5 NoRecognise
LOGOUT 10 5
PRINT 11 37
REMARK 12 45
RENAME 13 10
T 0 5 18
TAKE 14 21
TYPE 15 19
UNDELETE 16 15

VERSION 4 5

COPIES: 2 41
JOBNAME: 4 43
NOTE: 5 44";

// Nodes 0 to 8 read fields but files, 9 and 19 dates, 10 to 18 users, directories and files. Node 20 has a block of
// each kind, 21 and 22 are after its guide words, 23 has words of its own, 28 has keywords with a help, 32 to 34
// list names, 40 has keywords in small letters, and the others end the line or lead there.
pub(crate) const FIELD_NODES: &str = "\
0 key 0 > 0
1 noise FROM > 2
2 number > 3 / confirm > 0 = 7
3 switch 1 > 0 / key 0 > 0
4 quoted > 1
5 token All > 8 / text > 8
6 hook 2 > 8
7 hook 1 > 8
8 confirm > 0
9 date > 1
10 infile > 11 wild
11 confirm > 0
12 user > 11
13 directory > 11
14 directory > 11 new
15 anyfile > 11
16 infile > 11 deleted
17 anyfile > 11 wild all
18 outfile > 11
19 date > 11 / quoted > 11
20 key 2 > 24 / switch 3 > 24 / noise TO > 21 / number > 24 / word > 24 / quoted > 24 / token TTY: > 24 / text > 24 / \
    comma > 24 / hook 3 > 24 / confirm > 24
21 noise OF > 22 / comma > 24
22 word > 24
23 number > 24 ? how bright, 0 to 100 / comma > 24
24 confirm > 24
25 user > 24 / directory > 24 / infile > 24 / outfile > 24 / anyfile > 24
26 hook 3 > 24
27 quoted > 24
28 key 4 > 24 / switch 5 > 24
29 address > 30 ? address and prefix
30 path > 24
31 spaced > 24
32 hook 4 > 24
33 hook 5 > 24
34 hook 6 > 24
40 key 6 > 24 / switch 7 > 24";

pub(crate) const FIELD_TABLES: &str = "\
COPY 0 1
KJOB 0 8 NoRecognise
LO 0 8 3
LOGIN 0 2
LOGOUT 0 8 Invisible

AFTER: 0 2
FAST 0 1

COPY 0 24
KJOB 0 24 Invisible
LO 0 24 NoRecognise
SE 0 24 5
SEND 65535 24
SET 0 24
SETTLE 0 24

AFTER: 0 24
FAST 12 24

DIM 0 24 ? a lamp, by some levels
KJOB 0 24 Invisible ? the end of the job
LIST 0 24
NAME 0 24 ? a room (again)

BY: 0 24 ? how many levels
FAST 0 24 ? at once
ONCE: 0 24

3com 0 24
interface 0 24
Internet 0 24
Router 0 24 ? the name
SHORT 0 24
show 0 24

all 0 24
Before: 0 24";

// An address with the length of its prefix, whose node says what it awaits, and a path.
pub(crate) const ADDRESS_NODES: &str = "\
0 address > 1 What ? address and prefix ~ network address
1 path > 2 Value
2 confirm > 2";

// The name of a port.
pub(crate) const PORT_NODES: &str = "\
0 hook 4 > 1
1 confirm > 1";

// Numbers of each radix, of which the first have a sign, and a quoted text as long as the line.
pub(crate) const NUMBER_NODES: &str = "\
0 decimal > 1
1 octal > 2
2 hexadecimal > 3
3 longquoted > 4
4 confirm > 4";

// A word, a number, a quoted text and the rest of the line, of two roles, each with a default; and after a comma a
// file that is there and a directory that may be new.
pub(crate) const SAID_NODES: &str = "\
0 comma > 4 / word > 1 Value = FIRST
1 number > 2 Own3 = 7
2 quoted > 3 Value = \"say \"\"hi\"\"\"
3 raw text > 6 Own3 = the rest
4 infile > 5
5 directory > 6 new
6 confirm > 6";

// A command with options, keywords and switches, of which a line has each once. The keywords of node 5 are none.
pub(crate) const OPTION_NODES: &str = "\
0 key 0 > 1 Verb
1 confirm > 0 / key 1 > 1 once / switch 2 > 1 once
2 number > 1
3 number > 1
4 word > 1
5 confirm > 0 / key 1 > 1
6 confirm > 0 / key 3 > 6 once";

pub(crate) const OPTION_TABLES: &str = "\
ADD 8 6
SET 9 1

COMMENT 1 4
MTU 2 2
SPEED 3 3

FAST 4 1
LIMIT: 5 2

COST 1 6
COUNT 2 6
N 0 6 4
NAME 3 6
NUMBER 4 6";
