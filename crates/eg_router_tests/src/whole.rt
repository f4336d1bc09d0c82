// Whole runs: modes, interfaces and what is shown of them.
use crate::given::{leaves, outcome_of, try_cases};
use std::test::Fail;

#[test]
fn each_mode_has_its_prompt(rt: HostRuntime) -> Result<(), Fail> {
    try_cases(
        &rt,
        &[
            (b"", b"router>"),
            (b"\r", b"router>\r\nrouter>"),
            (b"enable\r", b"router>enable\r\nrouter#"),
            (
                b"en\rconfigure terminal\r",
                b"router>en\r\nrouter#configure terminal\r\nrouter(config)#",
            ),
            (
                b"en\rconf t\rinterface eth0\r",
                b"router>en\r\nrouter#conf t\r\nrouter(config)#interface eth0\r\nETH0#",
            ),
            (
                b"en\rconf t\rrouter ospf\r",
                b"router>en\r\nrouter#conf t\r\nrouter(config)#router ospf\r\nrouter(config-router)#",
            ),
        ],
    )
}

#[test]
fn exit_goes_one_mode_up_and_end_to_the_second(rt: HostRuntime) -> Result<(), Fail> {
    try_cases(
        &rt,
        &[
            (
                b"en\rconf t\rint e\rexit\rexit\rexit\r",
                b"router>en\r\nrouter#conf t\r\nrouter(config)#int e\r\nE#exit\r\n\
                    router(config)#exit\r\nrouter#exit\r\nrouter>",
            ),
            (
                b"en\rconf t\rrouter b\rexit\rend\r",
                b"router>en\r\nrouter#conf t\r\nrouter(config)#router b\r\nrouter(config-router)#exit\r\n\
                    router(config)#end\r\nrouter#",
            ),
            (
                b"en\rconf t\rint e\rend\r",
                b"router>en\r\nrouter#conf t\r\nrouter(config)#int e\r\nE#end\r\nrouter#",
            ),
            // A command of another mode is none here.
            (
                b"configure terminal\r",
                b"router>configure terminal\r\n?Unrecognized keyword\r\nrouter>",
            ),
            (b"end\r", b"router>end\r\n?Unrecognized keyword\r\nrouter>"),
        ],
    )
}

#[test]
fn takes_no_key_after_the_end(rt: HostRuntime) -> Result<(), Fail> {
    let mut outcome = outcome_of(&rt, b"exit\ren\r", None, 4096)?;
    let is_done = outcome.result == Ok(())
        && outcome.screen.bytes() == b"router>exit\r\n".as_slice();
    assert!(rt; is_done && leaves(&mut outcome.keys, b"en\r"));
    Ok(())
}

#[test]
fn interfaces_are_shown_in_the_order_of_their_names(rt: HostRuntime) -> Result<(), Fail> {
    try_cases(
        &rt,
        &[
            (b"show interfaces\r", b"router>show interfaces\r\nrouter>"),
            (
                b"sh v\r",
                b"router>sh v\r\nThe router of Lughvero\r\nrouter>",
            ),
            (
                b"en\rconf t\rint b\rex\rint a-1\rshut\rdesc \"to the lab\"\radd 10.0.0.255\rend\rsh i\r",
                b"router>en\r\nrouter#conf t\r\nrouter(config)#int b\r\nB#ex\r\n\
                    router(config)#int a-1\r\nA-1#shut\r\n\
                    A-1#desc \"to the lab\"\r\nA-1#add 10.0.0.255\r\n\
                    A-1#end\r\nrouter#sh i\r\n\
                    A-1 down 10.0.0.255 to the lab\r\nB up\r\nrouter#",
            ),
        ],
    )
}

#[test]
fn interfaces_come_and_go(rt: HostRuntime) -> Result<(), Fail> {
    try_cases(
        &rt,
        &[
            (
                b"en\rconf t\rint a\rex\rint b\rex\rno int A\rend\rsh i\r",
                b"router>en\r\nrouter#conf t\r\nrouter(config)#int a\r\nA#ex\r\n\
                    router(config)#int b\r\nB#ex\r\nrouter(config)#no int A\r\n\
                    router(config)#end\r\nrouter#sh i\r\nB up\r\nrouter#",
            ),
            // One that is there is not made anew.
            (
                b"en\rconf t\rint a\rshut\rex\rint A\rend\rsh i\r",
                b"router>en\r\nrouter#conf t\r\nrouter(config)#int a\r\nA#shut\r\n\
                    A#ex\r\nrouter(config)#int A\r\nA#end\r\n\
                    router#sh i\r\nA down\r\nrouter#",
            ),
            // ESC completes those that are there, and no others.
            (
                b"en\rconf t\rint eth0\rex\rint e\x1b",
                b"router>en\r\nrouter#conf t\r\nrouter(config)#int eth0\r\nETH0#ex\r\n\
                    router(config)#int eTH0 ",
            ),
            (
                b"en\rconf t\rno int e\x1b",
                b"router>en\r\nrouter#conf t\r\nrouter(config)#no int e\x07",
            ),
            // Neither INTERFACE nor NO INTERFACE takes an abbreviation: one makes an interface, the other refuses it.
            (
                b"en\rconf t\rint eth0\rex\rint eth\rex\rno int et\rend\rsh i\r",
                b"router>en\r\nrouter#conf t\r\nrouter(config)#int eth0\r\nETH0#ex\r\n\
                    router(config)#int eth\r\nETH#ex\r\nrouter(config)#no int et\r\n\
                    ?No such interface\r\nrouter(config)#end\r\nrouter#sh i\r\nETH up\r\nETH0 up\r\nrouter#",
            ),
            (
                b"en\rconf t\rint a_b\r",
                b"router>en\r\nrouter#conf t\r\nrouter(config)#int a_b\r\n?Not a name of an interface\r\n\
                    router(config)#",
            ),
            // One that is gone is refused in the line.
            (
                b"en\rconf t\rint a\rex\rno int a\rno int a\r",
                b"router>en\r\nrouter#conf t\r\nrouter(config)#int a\r\nA#ex\r\n\
                    router(config)#no int a\r\nrouter(config)#no int a\r\n?No such interface\r\nrouter(config)#",
            ),
        ],
    )
}

#[test]
fn no_takes_a_setting_back(rt: HostRuntime) -> Result<(), Fail> {
    try_cases(
        &rt,
        &[
            (
                b"en\rconf t\rint a\rshut\radd 1.2.3.4\rdesc \"x\"\rno shut\rno add\rno desc\rend\rsh i\r",
                b"router>en\r\nrouter#conf t\r\nrouter(config)#int a\r\nA#shut\r\n\
                    A#add 1.2.3.4\r\nA#desc \"x\"\r\n\
                    A#no shut\r\nA#no add\r\nA#no desc\r\n\
                    A#end\r\nrouter#sh i\r\nA up\r\nrouter#",
            ),
            (
                b"en\rconf t\rint a\radd 1.2.3.256\radd 1.2.3\rend\rsh i\r",
                b"router>en\r\nrouter#conf t\r\nrouter(config)#int a\r\nA#add 1.2.3.256\r\n\
                    ?Not an address\r\nA#add 1.2.3\r\n?Not an address\r\n\
                    A#end\r\nrouter#sh i\r\nA up\r\nrouter#",
            ),
        ],
    )
}

#[test]
fn a_line_that_ends_early_is_told_what_it_is_missing(rt: HostRuntime) -> Result<(), Fail> {
    try_cases(
        &rt,
        &[(
            b"en\rconf t\rint a\raddress\r",
            b"router>en\r\nrouter#conf t\r\nrouter(config)#int a\r\nA#address\r\n\
                ?Missing address\r\nA#",
        )],
    )
}

#[test]
fn explains_what_may_come(rt: HostRuntime) -> Result<(), Fail> {
    try_cases(
        &rt,
        &[
            (
                b"show ?",
                b"router>show ? one of the following:\r\n  INTERFACES  Interface status\r\n\
                    \x20 RUNNING-CONFIG  The configuration\r\n  VERSION  System version\r\nrouter>show ",
            ),
            (
                b"en\rconf t\rint a\raddress ?",
                b"router>en\r\nrouter#conf t\r\nrouter(config)#int a\r\n\
                    A#address ? address, as 10.0.0.1\r\nA#address ",
            ),
            (
                b"en\rconf t\rno int ?",
                b"router>en\r\nrouter#conf t\r\n\
                    router(config)#no int ? name of an interface\r\nrouter(config)#no int ",
            ),
            (
                b"en\rconf t\rint eth0\rex\rint eth1\rex\rint lo\rex\rno int e?",
                b"router>en\r\nrouter#conf t\r\nrouter(config)#int eth0\r\nETH0#ex\r\n\
                    router(config)#int eth1\r\nETH1#ex\r\nrouter(config)#int lo\r\nLO#ex\r\n\
                    router(config)#no int e? name of an interface\r\n  ETH0  ETH1\r\nrouter(config)#no int e",
            ),
            // INTERFACE takes new ones too, and lists those that are there, also one with a point.
            (
                b"en\rconf t\rint eth0.1\rex\rint ?",
                b"router>en\r\nrouter#conf t\r\nrouter(config)#int eth0.1\r\nETH0.1#ex\r\n\
                    router(config)#int ? name of an interface, old or new\r\n  ETH0.1\r\nrouter(config)#int ",
            ),
        ],
    )
}
