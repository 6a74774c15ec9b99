// A whole session: a refusal of every layer, a second sample, a bad frame, and slips. The replies were worked out apart from the program.
use crate::session::run;
use std::test::Fail;

const INPUT: &str = "\
x\n\
r 7 10 3\n\
p 1 0 1 0 0 1 500000\n\
f 1 0 0 g\n\
r 9 0 1\n\
p 1 0 1 0 0 1 500000\n\
r 9 4000 1\n\
p 0 0 1 0 0 1 500000\n\
p 1 256 257 0 256 1 500000\n\
p 3 0 1 3 1 1 500000\n\
p 3 0 2 3 1 0 500000\n\
p 3 0 2 3 1 400 0\n\
p 3 0 2 3 1 400 1000\n\
p 30000 0 2 3 1 400 500000\n\
s 1\n\
r 9 10 1\n\
p 1 0 1 0 0 3 699999\n\
p 1 0 1 0 0 3 700000\n\
p 11 0 1 0 0 3 700001\n\
r 9 10 2\n\
p 5000 0 1 0 0 3 700001\n\
r 9 4000 1\n\
p 3 0 2 3 1 1200 500000\n\
r 1 1 1\n\
p 1 0 1 0 0 1 500000\n\
s 2\n\
f 1 6 4 g\n\
f 3 4 4 g\n\
f 1 0 16 b\n\
f 2 107374183 0 g\n\
f 1 250 0 g\n\
f 4 0 0 g\n\
f 1 0 0 x\n\
f 1 1 0 b\n\
f 1 2 0 g\n\
f 1 3 0 g\n\
f 2 10 10 g\n\
f 3 9 9 g\n\
f 1 9 9 g\n\
s 1\n\
s 3\n\
s  1\n\
f 3 99999 3 g\n\
";

const OUTPUT: &str = "\
no 61 1 M\n\
no 61 2 M\n\
no 62 3 M\n\
no 62 4 M\n\
ok\n\
no 34 1 PM\n\
ok\n\
no 31 1 PM\n\
no 32 5 PM\n\
no 33 3 PM\n\
no 34 0 PM\n\
no 37 0 PM\n\
no 35 400 PM\n\
no 24 30003 RPM\n\
no 62 15 M\n\
ok\n\
no 35 3 PM\n\
no 36 3 PM\n\
no 24 11 RPM\n\
ok\n\
no 41 5000 IM\n\
ok\n\
ok 543356322074 543356322079\n\
no 62 24 M\n\
no 62 25 M\n\
ok 74\n\
0100040000000902000400000fa00300010104000a0003000000020003000105\n\
0008000004b00007a1200600100000007e828f811a0000007e828f811f070001\n\
00080006000000000000\n\
ok 0\n\
no 43 100 IM\n\
no 11 2 AIM\n\
no 12 1 AIM\n\
no 12 1 AIM\n\
no 61 32 M\n\
no 61 33 M\n\
ok 0\n\
ok 3\n\
ok 3\n\
ok 3\n\
ok 1\n\
no 42 6 IM\n\
ok 83\n\
0100040000000902000400000fa00300010104000a0003000000020003000105\n\
0008000004b00007a1200600100000007e828f811a0000007e828f811f070001\n\
01080006000600050001090006010000000100\n\
ok 83\n\
0100040000000902000400000fa00300010104000a0003000000020003000105\n\
0008000004b00007a1200600100000007e828f811a0000007e828f811f070001\n\
01080006000600050001090006030000000010\n\
no 61 42 M\n\
no 42 6 IM\n\
";

#[test]
fn a_whole_session(rt: HostRuntime) -> Result<(), Fail> {
    let replies = run(rt.alloc(), INPUT.as_bytes())?;
    assert_eq!(rt; replies.as_str(), OUTPUT);
    Ok(())
}

#[test]
fn more_bytes_than_are_read(rt: HostRuntime) -> Result<(), Fail> {
    let heap = rt.alloc();
    let most = vec![in heap; b'\n'; 65_536]?;
    assert!(rt; run(heap, most.as_slice())?.len() > 10);
    let more = vec![in heap; b'\n'; 65_537]?;
    assert_eq!(rt; run(heap, more.as_slice())?.as_str(), "no 63 0 M\n");
    Ok(())
}
