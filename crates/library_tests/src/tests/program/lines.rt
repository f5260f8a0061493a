//! Tables of lines with their answers. The input is cut into reads in several ways.
use super::{Ends, SOUND, assert_outcome};
use std::process::Abort;

/// The tables. A `=` separates the lines of a table from their answers, and a `;` separates two
/// tables.
const TABLES: &str = "insert 0102 7
get 0102
list
=none
7
0102 7
end 1
;insert 0102 7
insert 01 8
insert 0102 9
remove 0102
remove 0102
insert 01 8
list
=none
refused prefix
old 7
9
none
none
01 8
end 1
;insert 0A 007
get 0a
get 0g
insert 01
insert 01  2
prefix 01
prefix
=none
7
refused line
refused line
refused line
end 0
refused line
;insert 010203 1
insert 020304 2
insert 02030405 3
insert 020304 4
list
prefix-get 0102030405
get 0
=none
none
refused prefix
old 2
010203 1
020304 4
end 2
010203 1
refused line
;insert - 18446744073709551615
insert 00 18446744073709551616
get -
prefix-get ff
overwrite 0a 7

get 0A=none
refused line
18446744073709551615
- 18446744073709551615
len 1
refused line
7
;insert 00ffAB 00000000000000000001
insert 00 000000000000000000001
list
=none
refused line
00ffab 1
end 1
;list\r
list\x20
 list
list
=refused line
refused line
refused line
end 0
;get
remove
insert
get\x20
get - -
list -
=refused line
refused line
refused line
refused line
refused line
refused line
;insert 01 +1
insert 01 -1
insert 01\x20
insert 01 1\x20
=refused line
refused line
refused line
refused line
;insert 0101 1
insert 0102 2
insert 02 3
overwrite 01 9
overwrite 010203 4
prefix-get 01020304
list
=none
none
none
len 2
len 2
010203 4
010203 4
02 3
end 2
;prefix-get -
overwrite 00
overwrite 0 1
overwrite 00 +1
prefix-get 0
prefix-get 00 1
overwrite - 1
prefix-get -
list
=none
refused line
refused line
refused line
refused line
refused line
len 1
- 1
- 1
end 1
;insert 0101 1
insert 0102 2
insert 02 3
remove-prefix 01
remove-prefix 01
remove-prefix -
list
=none
none
none
removed 2
removed 0
removed 1
end 0
;remove-prefix
remove-prefix 0
remove-prefix 01 1
remove-prefix -
remove-Prefix 01
=refused line
refused line
refused line
removed 0
refused line
;=;range 02 01
insert 0101 1
insert 0102 2
insert 02 3
prefix 01
range 0102 -
range - 0102
range 0102 0102
=end 0
none
none
none
0101 1
0102 2
end 2
refused bounds
0101 1
end 1
end 0
;insert 010203 1
insert 020304 2
insert 02030405 3
insert 020304 4
list
prefix-get 0102030405
range 03 01
get 0
=none
none
refused prefix
old 2
010203 1
020304 4
end 2
010203 1
refused bounds
refused line
;prefix -
range - -
insert 01ff 1
insert 0A 2
prefix -
prefix 01FF
prefix 01ff00
prefix 0b
range - ff
range 01ff 0a
range 0a00 0b=end 0
end 0
none
none
01ff 1
0a 2
end 2
01ff 1
end 1
end 0
end 0
01ff 1
0a 2
end 2
01ff 1
end 1
end 0
;prefix
prefix\x20
prefix 0
prefix 01 02
range
range 01
range 1 2
range 01 2
range 01  02
range 01 02 03
range 01 02 =refused line
refused line
refused line
refused line
refused line
refused line
refused line
refused line
refused line
refused line
refused line
;insert - 5
prefix -
prefix 00
range - 00
range - -
range 00 -
list
=none
- 5
end 1
end 0
- 5
end 1
end 0
refused bounds
- 5
end 1
";

/// Each command at new and at stored keys, its conflicts and its bounds, digits in either case, the
/// greatest number and the next one, the empty key, a last line without a line feed, and lines that
/// are no commands.
#[test]
fn tables_of_lines(rt: HostRuntime) {
    for table in TABLES.split(';') {
        let (text, answers) = table.split_once('=').expect(&rt, "answers");
        for piece in [1, 2, 3, 5, 7, 100] {
            let ends = Ends { piece, ..SOUND };
            assert_outcome(&rt, text.as_bytes(), ends, Ok(()), answers.as_bytes());
        }
    }
}
