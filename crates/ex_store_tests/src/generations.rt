// The numbering, the retention and the pages of generations.

mod files;
mod steps;

use ex_generations::Bytes;
use std::alloc::AllocError;
use steps::{each_afresh, even, tells};

// [retention]
#[test]
fn retention_marks_the_lowest(rt: HostRuntime) {
    each_afresh(
        &rt,
        "\
1 2- 3 5; add 6 0 -> 1 2- 3 5 6
1 2- 3 5; add 6 1 -> 1- 2- 3- 5- 6
1 2- 3 5; add 6 3 -> 1- 2- 3 5 6
1- 2 3- 5; add 4 3 -> 1- 2 3- 4 5
2 3 4- 5; add 1 1 -> 1- 2- 3- 4- 5",
    );
}

// [next-generation]
#[test]
fn the_next_is_above_all(rt: HostRuntime) {
    each_afresh(
        &rt,
        "\
; next -> Ok(1)
1 2; next -> Ok(3)
1 4-; next -> Ok(5)
7- 131070; next -> Ok(131071)
7 131071; next -> Err(GenFull)
7 131071-; next -> Err(GenFull)",
    );
}

#[test]
fn the_ends_of_each_mark(rt: HostRuntime) {
    each_afresh(
        &rt,
        "\
; ends -> None None None None
2- 3 5 9- 12-; ends -> Some(3) Some(5) Some(2) Some(12)",
    );
}

#[test]
fn pages_are_rounded_up(rt: HostRuntime) {
    each_afresh(
        &rt,
        "\
; add 1 0 0; add 2 1 5000; expunge; files -> 1; 1- 2; 0; 2
; add 1 0 1; add 2 1 5000; expunge; files -> 1; 1- 2; 1; 2
; add 1 0 2560; add 2 1 5000; expunge; files -> 1; 1- 2; 1; 2
; add 1 0 2561; add 2 1 5000; expunge; files -> 1; 1- 2; 2; 2
; add 1 0 65536; add 2 1 5000; expunge; files -> 1; 1- 2; 26; 2",
    );
}

#[test]
fn marks_are_set_and_cleared(rt: HostRuntime) {
    tells(
        &rt,
        "1 3-; mark 1; unmark 3; mark 2; unmark 4; files -> Ok(()); Ok(()); Err(NoGen); Err(NoGen); 1- 3",
    );
}

#[test]
fn a_file_is_taken_out(rt: HostRuntime) {
    tells(&rt, "1 2- 3; remove 2; files -> 2-:0@5=; 1 3");
}

#[test]
fn a_file_is_replaced(rt: HostRuntime) {
    tells(
        &rt,
        "1 2; touch 1 9; replace 1 77 new; remove 1; files -> Ok(()); 1 2; 1:0@77/9=new; 2",
    );
}

#[test]
fn a_blank_has_no_bytes_and_was_not_read(rt: HostRuntime) {
    tells(
        &rt,
        "1 2-; replace 1 77 new; touch 1 9; set_keep 2 3; blank; all -> \
1 2-; Ok(()); Ok(()); 1:0@77= 2-:3@5=; 1:0@77/9=new 2-:3@5=",
    );
}

#[test]
fn a_file_is_put_in_as_it_is(rt: HostRuntime) {
    tells(
        &rt,
        "1 3; insert 2 1; insert 4 1; all -> 1 2- 3; 1 2- 3 4-; 1:0@5= 2-:1@5= 3:0@5= 4-:1@5=",
    );
}

#[test]
fn the_highest_says_what_the_next_keeps(rt: HostRuntime) {
    each_afresh(
        &rt,
        "\
; keep_for 7 -> 7
; keep_for 0 -> 0
1 2; keep_for 7 -> 0
1 2; set_keep 1 5; set_keep 2 3; keep_for 7 -> Ok(()); Ok(()); 3
1 2-; set_keep 1 5; set_keep 2 63; keep_for 7 -> Ok(()); Ok(()); 63",
    );
}

#[test]
fn what_a_file_keeps_marks_no_other(rt: HostRuntime) {
    tells(
        &rt,
        "1 2- 3; set_keep 3 1; set_keep 2 9; set_keep 4 1; all -> \
Ok(()); Ok(()); Err(NoGen); 1:0@5= 2-:9@5= 3:1@5=",
    );
}

#[test]
fn a_file_is_read(rt: HostRuntime) {
    tells(
        &rt,
        "1 2-; touch 2 77; touch 3 77; touch 1 0; all -> Ok(()); Err(NoGen); Ok(()); 1:0@5/0= 2-:0@5/77=",
    );
}

#[test]
fn retention_may_come_alone(rt: HostRuntime) {
    tells(
        &rt,
        "1 2- 3 4; retain 0; retain 2; retain 1 -> 1 2- 3 4; 1- 2- 3 4; 1- 2- 3- 4",
    );
}

#[test]
fn bytes_are_copied(rt: HostRuntime) -> Result<(), AllocError> {
    let bytes = Bytes::new(Vec::from_slice(rt.alloc(), b"two\nlines")?);
    let copy = bytes.copy(rt.alloc()).expect(&rt, "memory");
    assert_eq!(rt; copy.as_slice(), b"two\nlines".as_slice());
    Ok(())
}

#[test]
fn room_is_made(rt: HostRuntime) {
    tells(&rt, "; reserve 0; reserve 2; files -> Ok(()); Ok(()); none");
}

#[test]
fn a_generation_is_looked_for_by_halving(rt: HostRuntime) {
    let gens = even(&rt, 1_024);
    for generation in [
        0, 1, 2, 3, 1_023, 1_024, 1_025, 2_047, 2_048, 2_049, 131_071,
    ] {
        let mut probes = 0;
        let found = gens.position(generation, &mut probes);
        let is_there = generation > 0 && generation <= 2_048 && generation % 2 == 0;
        assert_eq!(rt; found.is_some(), is_there, "{generation}");
        assert!(rt; probes <= 11, "{generation}");
    }
}
