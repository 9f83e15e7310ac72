//! Steps over a tree, in turn, with the replies that they are given.
ghost use Rattle.hv_fpart.specs.Part.{IsFilesStep};

use super::*;
use hv_answer::print_reply;
use hv_event::{Asm, Cat, Dts, Ls, Mkdir, Rm, Write};
use hv_step::print_step;
use std::test::Fail;

fn path_of(alloc: Global, text: &str) -> Result<Path, Fail> {
    Ok(Path::read(alloc, text.as_bytes())?)
}

/// A step and its reply, as an event's line has them.
fn line_of(alloc: Global, step: &Step, reply: &Reply) -> Result<Bytes, Fail> {
    let mut line = Bytes::from_vec(Vec::new(alloc));
    print_step(alloc, &mut line, step)?;
    line.append(b" -> ")?;
    print_reply(alloc, &mut line, reply)?;
    Ok(line)
}

/// Makes a step that the files decide, and shows it with its reply.
fn answer_to(alloc: Global, files: &mut FileTree, step: &Step) -> Result<Bytes, Fail>
    requires { IsFilesStep step.now }
{
    let reply = files_part(alloc, files, step)?;
    line_of(alloc, step, &reply)
}

/// Makes a step and lets go of it.
fn made(alloc: Global, files: &mut FileTree, step: Step) -> Result<Bytes, Fail>
    requires { IsFilesStep step }
{
    answer_to(alloc, files, &step)
}

/// Makes a step by its word, its first path, and the second path or the bytes.
fn call(
    alloc: Global,
    files: &mut FileTree,
    word: &str,
    first: &str,
    second: &str,
) -> Result<Bytes, Fail> {
    let path = path_of(alloc, first)?;
    match word {
        "ls" => return made(alloc, files, Step::Ls(Ls { path })),
        "cat" => return made(alloc, files, Step::Cat(Cat { path })),
        "dts" => return made(alloc, files, Step::Dts(Dts { path })),
        _ => {}
    }
    if word == "asm" {
        let target = path_of(alloc, second)?;
        if target.is_empty() {
            return Ok(Bytes::from_vec(Vec::new(alloc)));
        }
        return made(
            alloc,
            files,
            Step::Asm(Asm {
                source: path,
                target,
            }),
        );
    }
    if path.is_empty() {
        return Ok(Bytes::from_vec(Vec::new(alloc)));
    }
    match word {
        "mkdir" => made(alloc, files, Step::Mkdir(Mkdir { path })),
        "rm" => made(alloc, files, Step::Rm(Rm { path })),
        _ => {
            let bytes = Bytes::from_vec(second.as_bytes().to_vec(alloc)?);
            made(alloc, files, Step::Write(Write { path, bytes }))
        }
    }
}

const STEPS: [(&str, &str, &str, &str); 19] = [
    ("ls", "/", "", "ls / -> ok ."),
    ("mkdir", "/d", "", "mkdir /d -> ok"),
    ("mkdir", "/d", "", "mkdir /d -> refused Exists"),
    (
        "write",
        "/d/f",
        "# no\nwfi\n",
        "write /d/f 23206e6f0a7766690a -> ok",
    ),
    ("ls", "/", "", "ls / -> ok d/"),
    ("asm", "/d/f", "/g", "asm /d/f /g -> ok 1"),
    ("cat", "/g", "", "cat /g -> ok 73005010"),
    ("asm", "/none", "/h", "asm /none /h -> refused NoEntry"),
    ("asm", "/d", "/h", "asm /d /h -> refused IsDir"),
    ("asm", "/d/f", "/d", "asm /d/f /d -> refused IsDir"),
    ("asm", "/g", "/h", "asm /g /h -> refused BadAsm 1"),
    ("cat", "/h", "", "cat /h -> refused NoEntry"),
    ("asm", "/d/f", "/d/f", "asm /d/f /d/f -> ok 1"),
    ("cat", "/d/f", "", "cat /d/f -> ok 73005010"),
    ("write", "/t", "}", "write /t 7d -> ok"),
    ("dts", "/t", "", "dts /t -> refused BadTree 0"),
    ("rm", "/d", "", "rm /d -> refused NotEmpty"),
    ("rm", "/d/f", "", "rm /d/f -> ok"),
    ("write", "/d", "x", "write /d 78 -> refused IsDir"),
];

#[test]
fn makes_each_step(rt: HostRuntime) -> Result<(), Fail> {
    let mut files = FileTree::new(rt.alloc())?;
    for (word, first, second, wanted) in STEPS {
        let line = call(rt.alloc(), &mut files, word, first, second)?;
        assert_eq!(rt; line.as_slice(), wanted.as_bytes());
    }
    Ok(())
}
