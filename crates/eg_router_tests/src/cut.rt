// Runs that a fault of the outside cuts short.
use crate::given::{leaves, outcome_of};
use cm_run::{Stop, status_of};
use eg_router::Mode;
use std::test::Fail;

const KEYS: &[u8] = b"en\rconf t\r";

#[test]
fn stops_where_the_keys_fail(rt: HostRuntime) -> Result<(), Fail> {
    let mut outcome = outcome_of(&rt, KEYS, Some(4), 4096)?;
    assert!(rt; outcome.result == Err(Stop::Keys) && outcome.router.mode == Mode::Privileged);
    assert!(rt; outcome.screen.bytes() == b"router>en\r\nrouter#c".as_slice());
    assert!(rt; leaves(&mut outcome.keys, b"onf t\r"));
    Ok(())
}

#[test]
fn takes_no_key_after_a_failed_screen(rt: HostRuntime) -> Result<(), Fail> {
    // In the first prompt, in an echo, in that of the key that confirms, and in the next prompt.
    for (room, mode, left) in [
        (0, Mode::User, "en\rconf t\r"),
        (8, Mode::User, "\rconf t\r"),
        (10, Mode::User, "conf t\r"),
        (11, Mode::Privileged, "conf t\r"),
    ] {
        let mut outcome = outcome_of(&rt, KEYS, None, room)?;
        assert!(rt;
            outcome.result == Err(Stop::Screen) && outcome.router.mode == mode,
            "{room}"
        );
        assert!(rt; leaves(&mut outcome.keys, left.as_bytes()), "{room}");
    }
    Ok(())
}

#[test]
fn each_end_has_its_number(rt: HostRuntime) {
    for (result, number) in [
        (Ok(()), 0),
        (Err(Stop::Limit), 0),
        (Err(Stop::Keys), 1),
        (Err(Stop::Screen), 2),
        (Err(Stop::Memory), 3),
    ] {
        assert_eq!(rt; status_of(result), number);
    }
}
