// Files that are queued for printing.

use crate::machine::steps::{each_after, in_turn, store_after, store_of};
use std::alloc::{AllocError, Global};

#[test]
fn files_are_queued_in_their_order(rt: HostRuntime) {
    let mut store = store_after(
        &rt,
        "build OPERATOR 0; build SMITH; files B.X A.T A.T; put <SMITH>C.X.7 X",
    );
    in_turn(
        &rt,
        &mut store,
        "\
print B.X; queue -> B.X.1=>B.X.1; <OPERATOR>B.X.1/1/1/-/B/
print each:*.* 63/2/47481/JOB-1/desk -> A.T.1=>A.T.1 A.T.2=>A.T.2 B.X.1=>B.X.1
queue -> <OPERATOR>B.X.1/1/1/-/B/ <OPERATOR>A.T.1/63/2/47481/JOB-1/desk \
<OPERATOR>A.T.2/63/2/47481/JOB-1/desk <OPERATOR>B.X.1/63/2/47481/JOB-1/desk
print <SMITH>C.X 2/0/0 -> <SMITH>C.X.7=><SMITH>C.X.7
entries; count -> 5; 4",
    );
}

#[test]
fn a_mark_is_asked_for(rt: HostRuntime) {
    each_after(
        &rt,
        "build OPERATOR 0; files A.T A.T B.X; mark A.T.1",
        "\
print A.T.1; queue -> none; 
print deleted:A.T.1; queue -> A.T.1=>A.T.1; <OPERATOR>A.T.1/1/1/-/A/
print each:*.T; queue -> A.T.2=>A.T.2; <OPERATOR>A.T.2/1/1/-/A/
print deleted:*.*; queue -> A.T.1=>A.T.1; <OPERATOR>A.T.1/1/1/-/A/
print C.X; queue -> none; ",
    );
}

// The image of a store with three files and so many requests.
fn image_with(alloc: Global, count: u32) -> Result<String, AllocError> {
    let mut image = String::from_str(
        alloc,
        "EXEC20 2|D OPERATOR 0|C OPERATOR|F OPERATOR A.T.1 U 0 5 - 0||F OPERATOR A.T.2 U 0 5 - 0||F OPERATOR B.X.1 U 0 5 - 0||",
    )?;
    for i in 0..count {
        let generation = i.saturating_add(1);
        write!(image, "Q OPERATOR C.X.{generation} 1 NORMAL - C |")?;
    }
    image.push_str("E|")?;
    Ok(image)
}

#[test]
fn there_are_at_most_64_requests(rt: HostRuntime) {
    let image = image_with(rt.alloc(), 62).expect(&rt, "memory");
    let mut store = store_of(&rt, image.as_str());
    in_turn(
        &rt,
        &mut store,
        "\
print each:*.*; entries -> QueueLimit; 62
print each:A.T; entries -> A.T.1=>A.T.1 A.T.2=>A.T.2; 64
print B.X; entries -> QueueLimit; 64
print C.X; entries -> none; 64",
    );
}
