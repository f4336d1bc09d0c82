// The limits, and one more.

use crate::machine::steps::{in_turn, store_after, store_of};
use std::alloc::{AllocError, Global};

// The steps that make so many directories.
fn builds(alloc: Global, count: u32) -> Result<String, AllocError> {
    let mut steps = String::from_str(alloc, "build OPERATOR")?;
    for i in 0..count {
        let number = i.saturating_add(1);
        write!(steps, "; build D{number}")?;
    }
    Ok(steps)
}

#[test]
fn there_are_at_most_64_directories(rt: HostRuntime) {
    let steps = builds(rt.alloc(), 63).expect(&rt, "memory");
    let mut store = store_after(&rt, steps.as_str());
    assert_eq!(rt; store.parts().directories(), 64);
    in_turn(
        &rt,
        &mut store,
        "\
build D64 2 -> DirLimit
build D63 2 -> none
build OPERATOR 2 -> none",
    );
    assert_eq!(rt; store.parts().directories(), 64);
}

// The image of a store with so many empty generations of A.T.
fn image_with(alloc: Global, count: u32) -> Result<String, AllocError> {
    let mut image = String::from_str(alloc, "EXEC20 2|D OPERATOR 0|C OPERATOR|")?;
    for i in 0..count {
        let generation = i.saturating_add(1);
        write!(image, "F OPERATOR A.T.{generation} U 0 5 - 0||")?;
    }
    image.push_str("E|")?;
    Ok(image)
}

#[test]
fn there_are_at_most_4096_files(rt: HostRuntime) {
    let image = image_with(rt.alloc(), 4_095).expect(&rt, "memory");
    let mut store = store_of(&rt, image.as_str());
    in_turn(
        &rt,
        &mut store,
        "\
count -> 4095
write B.T 0 -> B.T.1=>B.T.1
write B.T 0 -> FileLimit
write B.T 65537 -> FileLimit
write A.T.4095 0 -> FileExists
rename A.T.7 B.T; count -> A.T.7=>B.T.2; 4096",
    );
}

#[test]
fn a_file_has_at_most_65536_bytes(rt: HostRuntime) {
    let mut store = store_after(&rt, "build OPERATOR 0");
    in_turn(
        &rt,
        &mut store,
        "\
write A.T 65536 -> A.T.1=>A.T.1
write A.T 65537 -> FileSize
write B.T 65535 -> B.T.1=>B.T.1
write C.T 1 -> C.T.1=>C.T.1
append C.T B.T; sizes -> C.T.1=>B.T.1; 65536 65536 1
append C.T B.T; sizes -> FileSize; 65536 65536 1
append C.T A.T; sizes -> FileSize; 65536 65536 1
append C.T C.T; sizes -> C.T.1=>C.T.1; 65536 65536 2",
    );
}

// The first 64 of 128 files of 65,536 bytes.
const HALF: &str =
    "build OPERATOR 0; write A.T 65536; copy each:A.T A.T; copy each:A.T A.T; copy each:A.T A.T; \
copy each:A.T A.T; copy each:A.T A.T; copy each:A.T A.T";

// The steps of the first half, and one more.
fn full(alloc: Global, last: &str) -> Result<String, AllocError> {
    let mut steps = String::from_str(alloc, HALF)?;
    write!(steps, "; {last}")?;
    Ok(steps)
}

#[test]
fn all_files_have_at_most_8388608_bytes(rt: HostRuntime) {
    let steps = full(rt.alloc(), "copy each:A.T A.T").expect(&rt, "memory");
    let mut store = store_after(&rt, steps.as_str());
    in_turn(
        &rt,
        &mut store,
        "\
count -> 128
write B.T 1 -> StoreSize
write B.T 65537 -> FileSize
write B.T 0 -> B.T.1=>B.T.1
mark A.T.1; expunge OPERATOR -> 1; 26
write B.T 65535 -> B.T.2=>B.T.2
write B.T 1 -> B.T.3=>B.T.3
write B.T 1 -> StoreSize",
    );
}

#[test]
fn all_bytes_count_where_some_are_put_after(rt: HostRuntime) {
    let steps = full(rt.alloc(), "copy each:A.T.* B.T").expect(&rt, "memory");
    let mut store = store_after(&rt, steps.as_str());
    in_turn(
        &rt,
        &mut store,
        "\
count -> 128
mark B.T.64; expunge OPERATOR -> 1; 26
write C.T 32768 -> C.T.1=>C.T.1
append C.T D.T -> C.T.1=>D.T.1
append C.T D.T -> StoreSize",
    );
}
