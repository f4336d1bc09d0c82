// A line with numbers of each radix, and a quoted text as long as the line.
use super::question::{Question, tries};
use crate::grammars::numbers;
use std::test::Fail;

// The log has each number in decimal digits; help and refusals tell the range in the radix.
#[test]
fn reads_numbers_of_each_radix(rt: HostRuntime) -> Result<(), Fail> {
    let cases = "\
-5 777 ffff \"a\"\r|Confirmed|@-5 777 ffff \"a\"\r
@|
22 15 O 0.0#-5@0-2 1.0#511@3-6 2.0#65535@7-11
0d 15 D 0.0#-5@0-2 1.0#511@3-6 2.0#65535@7-11 3.0q@12-15

7 0 A \"thirty-nine bytes stand before the end.!\"\r|Confirmed|@7 0 A \"thirty-nine bytes stand before the end.!\"\r
@|
22 48 O 0.0#7@0-1 1.0#0@2-3 2.0#10@4-5
0d 48 D 0.0#7@0-1 1.0#0@2-3 2.0#10@4-5 3.0q@6-48

7\x1b|Edited|@7 |
1b 2 O 0.0#7@0-1

 ?|Edited|@ ? number from -5 to 7\r
@ |
3f 1 O

7 ?|Edited|@7 ? octal number from 0 to 777\r
@7 |
20 2 O 0.0#7@0-1
3f 2 O 0.0#7@0-1

7 0 ?|Edited|@7 0 ? hexadecimal number from A to FFFF\r
@7 0 |
20 4 O 0.0#7@0-1 1.0#0@2-3
3f 4 O 0.0#7@0-1 1.0#0@2-3

7 0 A ?|Edited|@7 0 A ? quoted string\r
@7 0 A |
20 6 O 0.0#7@0-1 1.0#0@2-3 2.0#10@4-5
3f 6 O 0.0#7@0-1 1.0#0@2-3 2.0#10@4-5

8 ?|Edited|@8 ? Must be -5 to 7\r
@8 |
20 2 F28.0@0
3f 2 F28.0@0

8\r|Refused(Fault { code: OutOfRange(Outside(\"Must be -5 to 7\")), node: 0, at: 0 })|@8\r
?Must be -5 to 7\r
@|
0d 1 F28.0@0";
    tries(&rt, &rt, Question::Keys, numbers(rt.alloc())?, cases)
}
