// Lawful lines, unknown lines, and the lines of replies.
use crate::{Answer, Declined, Digits, Reply, Request, parse, show};
use std::test::Fail;

fn digits(symbols: &[u8]) -> Result<Digits, Fail> {
    Ok(Digits::new(symbols).ok_or("no digits")?)
}

fn shows(reply: Reply, line: &[u8]) -> bool {
    show(&reply).as_slice() == line
}

#[test]
fn lawful_lines(rt: HostRuntime) -> Result<(), Fail> {
    let six = digits(&[0, 1, 2, 3, 4, 0])?;
    let none = digits(&[])?;
    assert_eq!(rt;
        parse(b"L 1 012340"),
        Some(Request::Load {
            radius: 1,
            symbols: six
        })
    );
    assert_eq!(rt;
        parse(b"L 9 "),
        Some(Request::Load {
            radius: 9,
            symbols: none
        })
    );
    assert_eq!(rt; parse(b"W 9"), Some(Request::Write(digits(&[9])?)));
    assert_eq!(rt; parse(b"W "), Some(Request::Write(none)));
    assert_eq!(rt; parse(b"R 000000"), Some(Request::Read(digits(&[0; 6])?)));
    assert_eq!(rt; parse(b"R "), Some(Request::Read(none)));
    assert_eq!(rt; parse(b"C"), Some(Request::Clear));
    Ok(())
}

#[test]
fn unknown_lines(rt: HostRuntime) {
    let lines: [&[u8]; 20] = [
        b"", b"W", b"R", b"L", b"C ", b"L 1", b"L 12 2", b"w 1", b"W1", b" W 1", b"W 1 ", b"W 1\r",
        b"W\t1", b"W 1\0", b"W a", b"L a 1", b"L  1", b"X 1", b"W /", b"W :",
    ];
    for line in lines {
        assert_eq!(rt; parse(line), None);
    }
}

#[test]
fn longest_line(rt: HostRuntime) -> Result<(), Fail> {
    let mut line = [b'7'; 67];
    line[0] = b'R';
    line[1] = b' ';
    assert_eq!(rt; parse(&line[..66]), Some(Request::Read(digits(&[7; 64])?)));
    assert_eq!(rt; parse(&line), None);
    Ok(())
}

#[test]
fn reply_lines(rt: HostRuntime) -> Result<(), Fail> {
    let mark = digits(&[0, 1, 2, 3, 4, 0])?;
    let message = digits(&[])?;
    let read = Answer::ReadBack {
        wrong: 1,
        turns: 12,
        mended: mark,
        message,
    };
    assert!(rt; shows(Ok(Answer::Loaded { k: 4, rows: 4096 }), b"ok 4 4096\n"));
    assert!(rt; shows(Ok(Answer::Written(mark)), b"ok 012340\n"));
    assert!(rt; shows(Ok(read), b"ok 1 12 012340 \n"));
    assert!(rt; shows(Ok(Answer::Cleared), b"ok\n"));
    assert!(rt; shows(Err(Declined::Refused(15)), b"no 15\n"));
    assert!(rt; shows(Err(Declined::Unknown), b"?\n"));
    Ok(())
}
