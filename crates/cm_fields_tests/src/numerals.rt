// Numbers of a radix, a sign and a range by example.
use crate::cases::{is_wanted, part};
use crate::fields::{Trial, tries};
use cm_fields::laws::ranges_are_told_whole;
use cm_fields::{Code, Numbers, Outside, Radix};
use std::alloc::Global;
use std::process::Abort;
use std::test::Fail;

fn numbers(radix: Radix, signed: bool, least: i64, most: i64) -> Numbers {
    Numbers {
        radix,
        signed,
        least,
        most,
    }
}

// The large numbers are 10 where they wrap at 35 or 64 bits, and one of 25 digits.
const FROM_10_TO_100000: &str = "\
|0|More
10|0|More
10\r|0|Accept { value: Integer(10), looked: 3, end: 2 }
P 100000,|2|Accept { value: Integer(100000), looked: 7, end: 8 }
0010\r|0|Accept { value: Integer(10), looked: 5, end: 4 }
9\r|0|Refuse { code: OutOfRange(Outside(\"Must be 10 to 100000\")), looked: 2 }
100001\r|0|Refuse { code: OutOfRange(Outside(\"Must be 10 to 100000\")), looked: 7 }
34359738378\r|0|Refuse { code: OutOfRange(Outside(\"Must be 10 to 100000\")), looked: 12 }
18446744073709551626\r|0|Refuse { code: OutOfRange(Outside(\"Must be 10 to 100000\")), looked: 21 }
1000000000000000000000000\r|0|Refuse { code: OutOfRange(Outside(\"Must be 10 to 100000\")), looked\
: 26 }
\r|0|Refuse { code: BadNumber, looked: 1 }
+15\r|0|Refuse { code: BadNumber, looked: 1 }
-15\r|0|Refuse { code: BadNumber, looked: 4 }
1A\r|0|Refuse { code: BadNumber, looked: 3 }
1-2\r|0|Refuse { code: BadNumber, looked: 4 }
 15\r|0|Refuse { code: BadNumber, looked: 1 }";

const FROM_MINUS_5_TO_7: &str = "\
-|0|More
-5|0|More
-0\r|0|Accept { value: Integer(0), looked: 3, end: 2 }
0\r|0|Accept { value: Integer(0), looked: 2, end: 1 }
-5\r|0|Accept { value: Integer(-5), looked: 3, end: 2 }
7\r|0|Accept { value: Integer(7), looked: 2, end: 1 }
-6\r|0|Refuse { code: OutOfRange(Outside(\"Must be -5 to 7\")), looked: 3 }
8\r|0|Refuse { code: OutOfRange(Outside(\"Must be -5 to 7\")), looked: 2 }
-\r|0|Refuse { code: BadNumber, looked: 2 }
--5\r|0|Refuse { code: BadNumber, looked: 4 }
+5\r|0|Refuse { code: BadNumber, looked: 1 }
5-\r|0|Refuse { code: BadNumber, looked: 3 }
-1000000000000000000000000\r|0|Refuse { code: OutOfRange(Outside(\"Must be -5 to 7\")), looked: 27 \
}";

const OCTAL_TO_777: &str = "\
777\r|0|Accept { value: Integer(511), looked: 4, end: 3 }
10\r|0|Accept { value: Integer(8), looked: 3, end: 2 }
1000\r|0|Refuse { code: OutOfRange(Outside(\"Must be 0 to 777\")), looked: 5 }
8\r|0|Refuse { code: BadNumber, looked: 2 }
78\r|0|Refuse { code: BadNumber, looked: 3 }
A\r|0|Refuse { code: BadNumber, looked: 2 }";

const FROM_MINUS_FF_TO_FFFF: &str = "\
ff\r|0|Accept { value: Integer(255), looked: 3, end: 2 }
FF\r|0|Accept { value: Integer(255), looked: 3, end: 2 }
aB1\r|0|Accept { value: Integer(2737), looked: 4, end: 3 }
-fF\r|0|Accept { value: Integer(-255), looked: 4, end: 3 }
FFFF\r|0|Accept { value: Integer(65535), looked: 5, end: 4 }
10000\r|0|Refuse { code: OutOfRange(Outside(\"Must be -FF to FFFF\")), looked: 6 }
-100\r|0|Refuse { code: OutOfRange(Outside(\"Must be -FF to FFFF\")), looked: 5 }
fg\r|0|Refuse { code: BadNumber, looked: 3 }
0x1\r|0|Refuse { code: BadNumber, looked: 4 }";

const ONLY_42: &str = "\
42\r|0|Accept { value: Integer(42), looked: 3, end: 2 }
41\r|0|Refuse { code: OutOfRange(Outside(\"Must be 42 to 42\")), looked: 3 }
43\r|0|Refuse { code: OutOfRange(Outside(\"Must be 42 to 42\")), looked: 3 }";

const OF_35_BITS: &str = "\
377777777777\r|0|Accept { value: Integer(34359738367), looked: 13, end: 12 }
400000000000\r|0|Refuse { code: OutOfRange(Outside(\"Must be -377777777777 to 377777777777\")), loo\
ked: 13 }
-377777777777\r|0|Accept { value: Integer(-34359738367), looked: 14, end: 13 }
-400000000000\r|0|Refuse { code: OutOfRange(Outside(\"Must be -377777777777 to 377777777777\")), lo\
oked: 14 }";

// Each table beside its numbers.
fn take(rt: &impl Abort, alloc: Global, wanted: Numbers, cases: &str) -> Result<(), Fail> {
    tries(rt, alloc, Trial::Numeral(wanted), cases)
}

#[test]
fn takes_decimal_numbers(rt: HostRuntime) -> Result<(), Fail> {
    let wanted = numbers(Radix::Decimal, false, 10, 100_000);
    take(&rt, rt.alloc(), wanted, FROM_10_TO_100000)?;
    let wanted = numbers(Radix::Decimal, true, -5, 7);
    take(&rt, rt.alloc(), wanted, FROM_MINUS_5_TO_7)?;
    let wanted = numbers(Radix::Decimal, false, 42, 42);
    take(&rt, rt.alloc(), wanted, ONLY_42)
}

#[test]
fn takes_numbers_of_other_radixes(rt: HostRuntime) -> Result<(), Fail> {
    let wanted = numbers(Radix::Octal, false, 0, 511);
    take(&rt, rt.alloc(), wanted, OCTAL_TO_777)?;
    let wanted = numbers(Radix::Hexadecimal, true, -255, 65_535);
    take(&rt, rt.alloc(), wanted, FROM_MINUS_FF_TO_FFFF)?;
    let wanted = numbers(Radix::Octal, true, -34_359_738_367, 34_359_738_367);
    take(&rt, rt.alloc(), wanted, OF_35_BITS)
}

fn signed_number(rt: &impl Abort, text: &str) -> i64 {
    match text.parse() {
        Ok(number) => number,
        Err(_) => panic!(rt; "{text} is no number"),
    }
}

fn radix(text: &str) -> Radix {
    match text {
        "8" => Radix::Octal,
        "16" => Radix::Hexadecimal,
        _ => Radix::Decimal,
    }
}

// A radix, a number, and the number in the radix.
const TEXTS: &str = "\
8|0|0
8|8|10
8|-8|-10
10|0|0
10|-1|-1
10|9223372036854775807|9223372036854775807
16|255|FF
16|-43981|-ABCD
16|-9223372036854775808|-8000000000000000
8|-9223372036854775808|-1000000000000000000000";

fn writes(rt: &impl Abort, case: &str) {
    let number = signed_number(rt, part(rt, case, 1));
    is_wanted(rt, case, radix(part(rt, case, 0)).text(number).as_str());
}

#[test]
fn writes_numbers_in_a_radix(rt: HostRuntime) {
    for case in TEXTS.lines() {
        writes(&rt, case);
    }
}

// A radix, a sign, both ends; whether a field may be such numbers; and the code that refuses another.
const RANGES: &str = "\
10|unsigned|10|100000|true 28 Must be 10 to 100000
10|unsigned|10|10|true 28 Must be 10 to 10
10|unsigned|11|10|false 28 Must be 11 to 10
10|unsigned|-1|10|false 28 Must be -1 to 10
10|signed|-1|10|true 28 Must be -1 to 10
10|signed|-1|-2|false 28 Must be -1 to -2
8|signed|-34359738367|34359738367|true 28 Must be -377777777777 to 377777777777
8|signed|-34359738368|0|false 28 Must be -400000000000 to 0
16|unsigned|0|34359738368|false 28 Must be 0 to 800000000
10|signed|-9223372036854775808|9223372036854775807|false 28 Must be -9223372036854775808 to 922337\
2";

fn tells(rt: &impl Abort, alloc: Global, case: &str) -> Result<(), Fail> {
    let wanted = Numbers {
        radix: radix(part(rt, case, 0)),
        signed: part(rt, case, 1) == "signed",
        least: signed_number(rt, part(rt, case, 2)),
        most: signed_number(rt, part(rt, case, 3)),
    };
    let code = Code::OutOfRange(Outside::new(wanted));
    let (valid, number) = (wanted.is_valid(), code.number());
    let told = format!(in alloc; "{valid} {number} {}", code.text())?;
    is_wanted(rt, case, told.as_str());
    Ok(())
}

#[test]
fn tells_the_range(rt: HostRuntime) -> Result<(), Fail> {
    for case in RANGES.lines() {
        tells(&rt, rt.alloc(), case)?;
    }
    Ok(())
}

#[test]
fn keeps_the_numbers_of_a_range(rt: HostRuntime) {
    let wanted = numbers(Radix::Octal, false, 0, 511);
    assert_eq!(rt; Outside::new(wanted).numbers(), wanted);
    assert!(rt; Outside::new(wanted) != Outside::new(numbers(Radix::Octal, true, 0, 511)));
    ranges_are_told_whole();
}
