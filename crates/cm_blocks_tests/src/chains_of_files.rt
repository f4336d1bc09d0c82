// Users, directories and files in chains.

use crate::grammars::nodes_of;
use crate::setting::answer_chains;
use cm_blocks::Grammar;
use std::test::Fail;

// Node 0 reads a file with wildcards, node 2 a user or a directory, by default OPERATOR, and node 3 a file, by default
// AB.TXT; after each node 1 confirms.
const NODES: &str = "InFile+wild>1/Confirm>1/User>1 Directory>1 =<OPERATOR>/InFile>1 =AB.TXT";

// The default is read by the same functions; its spans are places in it.
const ANSWERS: &str = "\
    0 0  A.* ;x\r => Field(Field { node: 0, block: 0, value: File { kind: In, spec: Spec { device: None, \
    directory: None, name: Some(Span { start: 1, end: 2 }), kind: Some(Span { start: 3, end: 4 }), \
    generation: Missing }, directory: 0 }, start: 1, end: 4, need: 5, defaulted: false, role: Source, next: 1 })\n\
    1 5 A.FOR\r => Done(5)\n\
    0 0 A.FOR => Open(Open { node: 0, block: Some(0), at: 0 })\n\
    0 0  B\r => Fault(Fault { code: NoFile, node: 0, at: 1 })\n\
    2 0 SMITH\r => Field(Field { node: 2, block: 0, value: User(1), start: 0, end: 5, need: 6, defaulted: false, \
    role: Files, next: 1 })\n\
    2 0 <SMITH>\r => Field(Field { node: 2, block: 1, value: Directory(1), start: 0, end: 7, need: 8, \
    defaulted: false, role: Files, next: 1 })\n\
    2 0 <X>\r => Fault(Fault { code: NoDirectory, node: 2, at: 0 })\n\
    2 0 SMITH => Open(Open { node: 2, block: Some(0), at: 0 })\n\
    2 0 <SMITH> => Open(Open { node: 2, block: Some(1), at: 0 })\n\
    2 0  \r => Field(Field { node: 2, block: 1, value: Directory(0), start: 1, end: 1, need: 2, defaulted: true, \
    role: Files, next: 1 })\n\
    3 0 \r => Field(Field { node: 3, block: 0, value: File { kind: In, spec: Spec { device: None, directory: None, \
    name: Some(Span { start: 0, end: 2 }), kind: Some(Span { start: 3, end: 6 }), generation: Missing }, \
    directory: 0 }, start: 0, end: 0, need: 1, defaulted: true, role: Source, next: 1 })\n\
    3 5 A.FOR\r => Field(Field { node: 3, block: 0, value: File { kind: In, spec: Spec { device: None, \
    directory: None, name: Some(Span { start: 0, end: 2 }), kind: Some(Span { start: 3, end: 6 }), \
    generation: Missing }, directory: 0 }, start: 5, end: 5, need: 6, defaulted: true, role: Source, next: 1 })";

#[test]
fn takes_users_directories_and_files(rt: HostRuntime) -> Result<(), Fail> {
    let alloc = rt.alloc();
    let grammar = Grammar::new(nodes_of(alloc, NODES)?, Vec::new(alloc))?;
    answer_chains(&rt, &grammar, ANSWERS)
}
