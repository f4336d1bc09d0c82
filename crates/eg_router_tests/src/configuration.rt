// The configuration: what is shown, typed into a new router, is shown again.
use crate::given::{outcome_of, try_cases};
use cm_run::Stop;
use eg_router::Interface;
use std::test::Fail;

#[test]
fn the_configuration_is_what_was_typed(rt: HostRuntime) -> Result<(), Fail> {
    try_cases(
        &rt,
        &[
            (b"en\rsh r\r", b"router>en\r\nrouter#sh r\r\nrouter#"),
            (
                b"en\rconf t\rint b\radd 10.0.0.1\rex\rint a\rshut\rdesc \"the \"\"lab\"\"\"\rend\rsh run\r",
                b"router>en\r\nrouter#conf t\r\nrouter(config)#int b\r\nB#add 10.0.0.1\r\n\
                    B#ex\r\nrouter(config)#int a\r\nA#shut\r\n\
                    A#desc \"the \"\"lab\"\"\"\r\nA#end\r\nrouter#sh run\r\n\
                    interface A\r\n description \"the \"\"lab\"\"\"\r\n shutdown\r\nexit\r\n\
                    interface B\r\n address 10.0.0.1\r\nexit\r\nrouter#",
            ),
        ],
    )
}

// The keys up to the mode of configuration, a line of a configuration, and what it makes there.
fn has_made(interface: &Interface, name: &str, address: &str, text: &str, is_down: bool) -> bool {
    interface.name.as_str() == name
        && interface.address.as_str() == address
        && interface.description.as_str() == text
        && interface.is_down == is_down
}

// [router-setting]
#[test]
fn each_line_of_it_makes_its_setting(rt: HostRuntime) -> Result<(), Fail> {
    for (lines, name, address, text, is_down) in [
        ("interface ETH0\rexit\r", "ETH0", "", "", false),
        (
            "interface A-1\r address 10.0.255.1\rexit\r",
            "A-1",
            "10.0.255.1",
            "",
            false,
        ),
        (
            "interface 7\r description \"the \"\"lab\"\"\"\rexit\r",
            "7",
            "",
            "the \"lab\"",
            false,
        ),
        ("interface e.100\r shutdown\rexit\r", "E.100", "", "", true),
    ] {
        let keys = format!(in rt.alloc(); "enable\rconfigure terminal\r{lines}")?;
        let outcome = outcome_of(&rt, keys.as_bytes(), None, 4096)?;
        let made = outcome.router.interfaces.as_slice();
        assert!(rt; outcome.result == Ok(()) && made.len() == 1, "{lines}");
        assert!(rt; has_made(&made[0], name, address, text, is_down), "{lines}");
    }
    Ok(())
}

#[test]
fn there_are_at_most_sixteen(rt: HostRuntime) -> Result<(), Fail> {
    let alloc = rt.alloc();
    let mut keys = String::new(alloc);
    keys.push_str("en\rconf t\r")?;
    for number in 0..17u32 {
        let line = format!(in alloc; "int e{number}\rexit\r")?;
        keys.push_str(&line)?;
    }
    let outcome = outcome_of(&rt, keys.as_bytes(), None, 4096)?;
    let shown = outcome.screen.bytes();
    // The last is refused, so that its EXIT leaves the mode of configuration.
    let refusal = b"int e16\r\n?Too many interfaces\r\nrouter(config)#exit\r\nrouter#".as_slice();
    assert!(rt; outcome.result == Ok::<(), Stop>(()) && shown.ends_with(refusal));
    assert_eq!(rt; outcome.router.interfaces.as_slice().len(), 16);
    Ok(())
}
