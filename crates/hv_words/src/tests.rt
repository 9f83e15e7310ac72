//! Lines, scripts and commands.
use super::*;
use hv_text::Bytes;
use std::alloc::{AllocError, Global};

/// The command lines of a script, each with a bar behind it.
fn listed(alloc: Global, text: &[u8]) -> Result<Bytes, AllocError> {
    let mut script = Script::new(Bytes::from_vec(Vec::from_slice(alloc, text)?));
    let mut lines = Bytes::from_vec(Vec::new(alloc));
    for _ in 0..text.len() {
        if script.is_over() {
            return Ok(lines);
        }
        if let Some(line) = script.next_line(alloc)? {
            lines.append(line.as_slice())?;
            lines.append(b"|")?;
        }
    }
    Ok(lines)
}

#[test]
fn skips_blanks_and_comments(rt: HostRuntime) {
    let alloc = rt.alloc();
    let text = b"\n  \n# one\nvfs ls /\r\n   # two\n\t\nterm rest 1\r\r\n#\n last\r".as_slice();
    let lines = listed(alloc, text).expect(&rt, "ample memory");
    assert!(rt; lines.as_slice() == b"vfs ls /|\t|term rest 1\r| last\r|".as_slice());
    assert_eq!(rt; count_lines(text), 9);
    assert_eq!(rt; count_lines(b""), 0);
    let nothing = listed(alloc, b" \n# no more").expect(&rt, "ample memory");
    assert!(rt; nothing.as_slice().is_empty());
    assert!(rt; is_skipped_line(b"   ") && !is_skipped_line(b"\t"));
}

/// What a line is read as, in short: the command's name, or the number of the bad word.
fn short(alloc: Global, line: &[u8]) -> &'static str {
    match read_command(alloc, line) {
        Ok(Command::VfsLs(_)) => "ls",
        Ok(Command::VfsCat(_)) => "cat",
        Ok(Command::VfsDts(_)) => "dts",
        Ok(Command::VfsMkdir(_)) => "mkdir",
        Ok(Command::VfsRm(_)) => "rm",
        Ok(Command::VfsWrite(_, _)) => "write",
        Ok(Command::VfsAsm(_, _)) => "asm",
        Ok(Command::VfsRun(_)) => "run",
        Ok(Command::TermRest(_)) => "rest",
        Err(WordsRefusal::NoCommand) => "none",
        Err(WordsRefusal::BadWords(3)) => "bad 3",
        Err(WordsRefusal::BadWords(4)) => "bad 4",
        Err(WordsRefusal::BadWords(5)) => "bad 5",
        Err(WordsRefusal::BadWords(_)) => "bad",
        Err(WordsRefusal::Memory(_)) => "memory",
    }
}

#[test]
fn reads_each_row_and_its_refusals(rt: HostRuntime) {
    lines_are_unambiguous();
    lines_say_what_is_told();
    for (line, said) in [
        (b"vfs ls /".as_slice(), "ls"),
        (b"  vfs   cat /a/b  ".as_slice(), "cat"),
        (b"vfs mkdir /1/2/3/4/5/6/7/8".as_slice(), "mkdir"),
        (b"vfs mkdir /1/2/3/4/5/6/7/8/9".as_slice(), "bad 3"),
        (b"vfs rm /x".as_slice(), "rm"),
        (b"vfs run /".as_slice(), "run"),
        (b"vfs dts /host.dts".as_slice(), "dts"),
        (b"vfs dts".as_slice(), "bad 3"),
        (b"vfs dts / /".as_slice(), "bad 4"),
        (b"vfs asm / /b".as_slice(), "asm"),
        (b"vfs asm a /b".as_slice(), "bad 3"),
        (b"vfs asm /a /".as_slice(), "bad 4"),
        (b"vfs asm /a".as_slice(), "bad 4"),
        (b"vfs asm /a /b /c".as_slice(), "bad 5"),
        (b"vfs fly".as_slice(), "none"),
        (b"vfs".as_slice(), "none"),
        (b"term ls /".as_slice(), "none"),
        (b"vfs cat".as_slice(), "bad 3"),
        (b"vfs cat /a /b".as_slice(), "bad 4"),
        (b"vfs cat a".as_slice(), "bad 3"),
        (b"vfs cat a \xc3".as_slice(), "none"),
        (b"vfs mkdir /".as_slice(), "bad 3"),
        (b"vfs rm /".as_slice(), "bad 3"),
        (b"vfs write /x a\\sb\\n\\x4F\\\\".as_slice(), "write"),
        (b"vfs write /x a\\q".as_slice(), "bad 4"),
        (b"vfs write /x a\\x4".as_slice(), "bad 4"),
        (b"vfs write /x \\".as_slice(), "bad 4"),
        (b"vfs write /x".as_slice(), "bad 4"),
        (b"vfs write /".as_slice(), "bad 3"),
        (b"vfs write /x a b".as_slice(), "bad 5"),
        (b"term rest 1".as_slice(), "rest"),
        (b"term rest 0".as_slice(), "bad 3"),
        (b"term rest 010000".as_slice(), "rest"),
        (b"term rest 10001".as_slice(), "bad 3"),
        (b"term rest 0x10".as_slice(), "rest"),
        (b"term rest -1".as_slice(), "bad 3"),
        (b"term rest 1 ".as_slice(), "rest"),
        (b"term\trest 1".as_slice(), "none"),
        (b"term rest 1\t".as_slice(), "none"),
        (b"term rest 1\x7f".as_slice(), "none"),
    ] {
        assert_eq!(rt; short(rt.alloc(), line), said);
    }
}

/// Whether a line is read as a command that is printed as this.
fn prints(alloc: Global, line: &[u8], wanted: &[u8]) -> bool {
    match read_command(alloc, line) {
        Ok(command) => match print_command(alloc, &command) {
            Ok(text) => text.as_slice() == wanted,
            Err(_) => false,
        },
        Err(_) => false,
    }
}

#[test]
fn prints_what_is_read_back(rt: HostRuntime) {
    for (line, wanted) in [
        (b"  vfs  ls   /a/b ".as_slice(), b"vfs ls /a/b".as_slice()),
        (b"term rest 0x0A".as_slice(), b"term rest 10".as_slice()),
        (b"vfs  asm /a   /b".as_slice(), b"vfs asm /a /b".as_slice()),
        (
            b"vfs write /x a\\x20\\s\\x0a\\x5C\\x7F\\xfe\\x00~!".as_slice(),
            b"vfs write /x a\\s\\s\\n\\\\\\x7f\\xfe\\x00~!".as_slice(),
        ),
    ] {
        assert!(rt; prints(rt.alloc(), line, wanted));
    }
}
