// Sessions, as keys and the screen.
use crate::given::try_cases;
use std::test::Fail;

// [interface]
#[test]
fn options_come_in_any_order(rt: HostRuntime) -> Result<(), Fail> {
    try_cases(
        &rt,
        &[
            (
                b"interface eth1 set mtu 1400 address 10.0.0.1/8\rinterface eth1 show\r",
                b"@interface eth1 set mtu 1400 address 10.0.0.1/8\r\n@interface eth1 show\r\n\
                    eth1 address 10.0.0.1/8 mtu 1400 speed auto\r\n@",
            ),
            (
                b"int eth1 set speed 100 address 10.0.0.1/8 mtu 9000\rint eth1 set speed 10\rint eth1 show\r",
                b"@int eth1 set speed 100 address 10.0.0.1/8 mtu 9000\r\n@int eth1 set speed 10\r\n@int eth1 show\r\n\
                    eth1 address 10.0.0.1/8 mtu 9000 speed 10\r\n@",
            ),
        ],
    )
}

#[test]
fn all_are_shown(rt: HostRuntime) -> Result<(), Fail> {
    try_cases(
        &rt,
        &[
            (
                b"show\rquit\rshow\r",
                b"@show\r\neth0 mtu 1500 speed auto\r\neth0.100 mtu 1500 speed auto\r\n\
                    eth1 mtu 1500 speed auto\r\nwlan0 mtu 1500 speed auto\r\n@quit\r\n",
            ),
            (b"\r", b"@\r\n@"),
        ],
    )
}

#[test]
fn each_option_is_taken_once(rt: HostRuntime) -> Result<(), Fail> {
    try_cases(
        &rt,
        &[(
            b"int eth0 set mtu 68 mtu 69\rint eth0 show\r",
            b"@int eth0 set mtu 68 mtu 69\r\n?Already given\r\n@int eth0 show\r\neth0 mtu 1500 speed auto\r\n@",
        )],
    )
}

#[test]
fn a_wrong_value_is_refused(rt: HostRuntime) -> Result<(), Fail> {
    try_cases(
        &rt,
        &[
            (
                b"int eth0 set address 10.0.0.256/8\r",
                b"@int eth0 set address 10.0.0.256/8\r\n?Not an address, a slash and a length\r\n@",
            ),
            (
                b"int eth0 set address 10.0.0.1/33\r",
                b"@int eth0 set address 10.0.0.1/33\r\n?Not an address, a slash and a length\r\n@",
            ),
            (
                b"int eth0 set mtu 67\r",
                b"@int eth0 set mtu 67\r\n?Must be 68 to 9000\r\n@",
            ),
        ],
    )
}

#[test]
fn a_line_tells_what_it_is_missing(rt: HostRuntime) -> Result<(), Fail> {
    try_cases(
        &rt,
        &[
            (b"interface\r", b"@interface\r\n?Missing interface\r\n@"),
            (b"int eth0\r", b"@int eth0\r\n?Missing set or show\r\n@"),
            (b"int eth0 set\r", b"@int eth0 set\r\n?Missing option\r\n@"),
            (
                b"int eth0 set mtu 68 address\r",
                b"@int eth0 set mtu 68 address\r\n?Missing address\r\n@",
            ),
        ],
    )
}

#[test]
fn names_are_completed_and_listed(rt: HostRuntime) -> Result<(), Fail> {
    try_cases(
        &rt,
        &[
            (b"int eth0.\x1b", b"@int eth0.100 "),
            (b"int w\x1b", b"@int wlan0 "),
            (
                b"int eth0?",
                b"@int eth0? interface\r\n  eth0      eth0.100\r\n@int eth0",
            ),
        ],
    )
}
