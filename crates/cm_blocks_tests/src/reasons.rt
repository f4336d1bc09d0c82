// Which refusal a chain tells where all its blocks refuse, by example.

use crate::grammars::nodes_of;
use crate::setting::answer_chains;
use cm_blocks::Grammar;
use std::test::Fail;

const NODES: &str = "Hook:0>1 Number>1/\
    Confirm/\
    Number>1 Hook:0>1/\
    Hook:0>1 Hook:1>1 Comma>1/\
    Hook:0>1 Word>1/\
    Hook:0>1 Number>1 =ABCDE";

// The last block has a reason of the program's own, or one before it has, or none has; or the last block takes what
// one before it refuses with a reason. The default is refused as the text is.
const CASES: &str =
    "0 0 ABCDE  => Fault(Fault { code: Own(Reason { number: 200, text: \"Five bytes\" }), node: 0, at: 0 })
2 0 ABCDE  => Fault(Fault { code: Own(Reason { number: 200, text: \"Five bytes\" }), node: 2, at: 0 })
3 0 ABCDE  => Fault(Fault { code: Own(Reason { number: 201, text: \"Five bytes\" }), node: 3, at: 0 })
0 0 ABC  => Fault(Fault { code: BadNumber, node: 0, at: 0 })
2 0 ABC  => Fault(Fault { code: Rejected, node: 2, at: 0 })
0 0 ,  => Fault(Fault { code: BadNumber, node: 0, at: 0 })
4 0 ABCDE  => Field(Field { node: 4, block: 1, value: Word(Span { start: 0, end: 5 }), start: 0, end: 5, need: 6, \
defaulted: false, role: What, next: 1 })
5 1  \r => Fault(Fault { code: Own(Reason { number: 200, text: \"Five bytes\" }), node: 5, at: 1 })";

#[test]
fn keeps_a_reason(rt: HostRuntime) -> Result<(), Fail> {
    let alloc = rt.alloc();
    let grammar = Grammar::new(nodes_of(alloc, NODES)?, Vec::new(alloc))?;
    answer_chains(&rt, &grammar, CASES)
}
