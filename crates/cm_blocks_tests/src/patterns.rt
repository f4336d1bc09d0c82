// What patterns mean, and that it is found soon.

use crate::cases::{Subject, debug_text, hold};
use cm_files::matches;
use std::alloc::Global;
use std::test::Fail;

// Whether the pattern before a slash means the name after it.
struct Patterns;

impl Subject for Patterns {
    fn answer(&self, alloc: Global, given: &str) -> Result<String, Fail> {
        let (pattern, name) = given.split_once('/').ok_or("a pattern is given first")?;
        debug_text(alloc, &matches(pattern.as_bytes(), name.as_bytes()))
    }
}

const MEANINGS: &str = "/ => true
/A => false
*/ => true
*/ABC => true
%/ => false
%/A => true
%/AB => false
A*%/ABC => true
A*%/AB => true
A*%/A => false
a%c/ABC => true
ABC/abc => true
ABC/ABCD => false
ABCD/ABC => false
*C/ABC => true
*C/ABD => false
A*B*C/AXBYBZC => true
A*B*C/AXCYB => false
*AB*/AAB => true
*AAB/AAAB => true
A**B/AB => true
AB*BA/ABA => false
AB*BA/ABBA => true
**/ => true
*%*/ => false";

// [wildcard]
#[test]
fn a_star_is_a_run_and_a_percent_one_byte(rt: HostRuntime) -> Result<(), Fail> {
    hold(rt.alloc(), &Patterns, MEANINGS)
}

// A walk that tries each way to part a name would look at some ten to the tenth bytes of each.
const HOSTILE: &str =
    "*A*A*A*A*A*A*A*A*A*A*A*A*A*A*A*A*A*A*A*/AAAAAAAAAAAAAAAAAAAAAAAAAAAAAAAAAAAAAAA => true
*A*A*A*A*A*A*A*A*A*A*A*A*A*A*A*A*A*A*AB/AAAAAAAAAAAAAAAAAAAAAAAAAAAAAAAAAAAAAAA => false
*AAAAAAAAAAAAAAAAAAB*AAAAAAAAAAAAAAAAAB/AAAAAAAAAAAAAAAAAAAAAAAAAAAAAAAAAAAAAAA => false
%*%*%*%*%*%*%*%*%*%*%*%*%*%*%*%*%*%*%*B/AAAAAAAAAAAAAAAAAAAAAAAAAAAAAAAAAAAAAAA => false
***************************************/AAAAAAAAAAAAAAAAAAAAAAAAAAAAAAAAAAAAAAA => true";

#[test]
fn hostile_patterns_end_soon(rt: HostRuntime) -> Result<(), Fail> {
    hold(rt.alloc(), &Patterns, HOSTILE)
}
