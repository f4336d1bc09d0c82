// Directories and users by example.

use crate::cases::{Subject, debug_text, hold, place_of, text_of};
use crate::sample::Sample;
use cm_files::{directory, user};
use std::alloc::Global;
use std::test::Fail;

// Directories, or those that may be new ones.
struct Directories {
    new: bool,
}

impl Subject for Directories {
    fn answer(&self, alloc: Global, given: &str) -> Result<String, Fail> {
        debug_text(alloc, &directory(self.new, &Sample, text_of(given)?, 0))
    }
}

struct Users;

impl Subject for Users {
    fn answer(&self, alloc: Global, given: &str) -> Result<String, Fail> {
        let given = place_of(given)?;
        debug_text(alloc, &user(&Sample, given.text, given.at))
    }
}

const OLD: &str = "<SMITH>\r => Accept { value: Directory(1), looked: 8, end: 7 }
<smith>  => Accept { value: Directory(1), looked: 8, end: 7 }
PS:\r => Accept { value: Directory(0), looked: 4, end: 3 }
dsk:\r => Accept { value: Directory(0), looked: 5, end: 4 }
SYS:\r => Accept { value: Directory(1), looked: 5, end: 4 }
SYS:<OPERATOR>\r => Accept { value: Directory(0), looked: 15, end: 14 }
\r => Refuse { code: SpecShape, looked: 1 }
SMITH\r => Refuse { code: NoDirectory, looked: 6 }
A.B\r => Refuse { code: NoDirectory, looked: 4 }
A..B.\r => Refuse { code: NoDirectory, looked: 6 }
A-NAME-OF-FORTY-BYTES-IN-ITS-LENGTH-OF-1\r => Refuse { code: NoDirectory, looked: 41 }
<SMITH\r => Refuse { code: SpecShape, looked: 7 }
<SMITH>A\r => Refuse { code: SpecShape, looked: 9 }
*\r => Refuse { code: SpecShape, looked: 2 }
<S>A.B.X\r => Refuse { code: GenRange, looked: 9 }
<A-NAME-OF-FORTY-BYTES-IN-ITS-LENGTH-OF-1>\r => Refuse { code: NameLong, looked: 43 }
TTY:<S*>\r => Refuse { code: WildHere, looked: 9 }
TTY:\r => Refuse { code: Device, looked: 5 }
X:<SMITH>\r => Refuse { code: NoLogical, looked: 10 }
<NONE>\r => Refuse { code: NoDirectory, looked: 7 }
<SMITH> => More";

#[test]
fn directories_that_are_there(rt: HostRuntime) -> Result<(), Fail> {
    hold(rt.alloc(), &Directories { new: false }, OLD)
}

const NEW: &str =
    "<NEW.ONE>\r => Accept { value: NewDirectory(Span { start: 1, end: 8 }), looked: 10, end: 9 }
<SMITH>\r => Accept { value: NewDirectory(Span { start: 1, end: 6 }), looked: 8, end: 7 }
PS:<NEW>\r => Accept { value: NewDirectory(Span { start: 4, end: 7 }), looked: 9, end: 8 }
SYS:<NEW>\r => Accept { value: NewDirectory(Span { start: 5, end: 8 }), looked: 10, end: 9 }
\r => Refuse { code: SpecShape, looked: 1 }
NEW\r => Refuse { code: SpecShape, looked: 4 }
PS:\r => Refuse { code: SpecShape, looked: 4 }
<NEW>A\r => Refuse { code: SpecShape, looked: 7 }
<A*>\r => Refuse { code: WildHere, looked: 5 }
TTY:<NEW>\r => Refuse { code: Device, looked: 10 }
X:<NEW>\r => Refuse { code: NoLogical, looked: 8 }";

#[test]
fn directories_that_may_be_new(rt: HostRuntime) -> Result<(), Fail> {
    hold(rt.alloc(), &Directories { new: true }, NEW)
}

const USERS: &str = "0 SMITH\r => Accept { value: User(1), looked: 6, end: 5 }
2 A operator, => Accept { value: User(0), looked: 9, end: 10 }
0 SMITH< => Accept { value: User(1), looked: 6, end: 5 }
0 SMITH => More
0 \r => Refuse { code: NoUser, looked: 1 }
0 SMIT\r => Refuse { code: NoUser, looked: 5 }
0 SMITH.A\r => Refuse { code: NoUser, looked: 8 }
0 SMITH: => Refuse { code: NoUser, looked: 6 }
0 SYS\r => Refuse { code: NoUser, looked: 4 }";

#[test]
fn users_have_no_point_and_no_colon(rt: HostRuntime) -> Result<(), Fail> {
    hold(rt.alloc(), &Users, USERS)
}
