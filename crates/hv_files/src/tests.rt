//! The calls on a tree, in turn.
use super::*;
use hv_text::{Bytes, Path};
use std::alloc::Global;
use std::test::Fail;

fn path_of(alloc: Global, text: &str) -> Result<Path, Fail> {
    Ok(Path::read(alloc, text.as_bytes())?)
}

/// What a call answered, as text.
fn shown(answer: Result<(), FileRefusal>) -> &'static str {
    match answer {
        Ok(()) => "ok",
        Err(FileRefusal::NoEntry) => "NoEntry",
        Err(FileRefusal::NotDir) => "NotDir",
        Err(FileRefusal::IsDir) => "IsDir",
        Err(FileRefusal::Exists) => "Exists",
        Err(FileRefusal::NotEmpty) => "NotEmpty",
        Err(FileRefusal::Memory(_)) => "Memory",
    }
}

/// Makes one call, and shows what it answered.
fn call(alloc: Global, tree: &mut FileTree, word: &str, path: &Path) -> Result<Bytes, Fail> {
    let mut text = Bytes::from_vec(Vec::new(alloc));
    match word {
        "get" => match tree.get(path) {
            Ok(bytes) => text.append(bytes)?,
            Err(why) => text.append(shown(Err(why)).as_bytes())?,
        },
        "list" => match tree.list(path) {
            Ok(names) => {
                for name in &names {
                    text.append(name.as_slice())?;
                    text.append(b" ")?;
                }
            }
            Err(why) => text.append(shown(Err(why)).as_bytes())?,
        },
        _ => {
            if path.is_empty() {
                return Ok(text);
            }
            let answer = match word {
                "mkdir" => tree.mkdir(path),
                "put" => tree.put(path, Bytes::from_vec(b"new".to_vec(alloc)?)),
                _ => tree.remove(path),
            };
            text.append(shown(answer).as_bytes())?;
        }
    }
    Ok(text)
}

const CALLS: [(&str, &str, &str); 33] = [
    ("get", "/", "IsDir"),
    ("list", "/", ""),
    ("mkdir", "/d", "ok"),
    ("mkdir", "/d", "Exists"),
    ("mkdir", "/no/d", "NoEntry"),
    ("put", "/d/x", "ok"),
    ("put", "/d", "IsDir"),
    ("put", "/no/x", "NoEntry"),
    ("put", "/d/x/y", "NotDir"),
    ("put", "/d/x/y/z", "NotDir"),
    ("mkdir", "/d/x", "Exists"),
    ("mkdir", "/d/x/y", "NotDir"),
    ("put", "/d-e", "ok"),
    ("put", "/a", "ok"),
    ("list", "/", "a d/ d-e "),
    ("mkdir", "/d/b", "ok"),
    ("mkdir", "/d/b/c", "ok"),
    ("list", "/d", "b/ x "),
    ("list", "/a", "NotDir"),
    ("list", "/a/b", "NotDir"),
    ("list", "/no", "NoEntry"),
    ("get", "/a", "new"),
    ("put", "/a", "ok"),
    ("get", "/d/b", "IsDir"),
    ("get", "/d/b/no/more", "NoEntry"),
    ("get", "/a/b", "NotDir"),
    ("remove", "/d/b", "NotEmpty"),
    ("remove", "/d/b/c", "ok"),
    ("remove", "/d/b", "ok"),
    ("remove", "/d/b", "NoEntry"),
    ("remove", "/a/b", "NotDir"),
    ("remove", "/d/x", "ok"),
    ("list", "/d", ""),
];

#[test]
fn answers_each_call_in_turn(rt: HostRuntime) -> Result<(), Fail> {
    let mut tree = FileTree::new(rt.alloc())?;
    for (word, text, answer) in CALLS {
        let path = path_of(rt.alloc(), text)?;
        let given = call(rt.alloc(), &mut tree, word, &path)?;
        assert_eq!(rt; given.as_slice(), answer.as_bytes(), "{word} {text}");
    }
    Ok(())
}

#[test]
fn knows_its_own_definitions(_rt: HostRuntime) {
    files_are_loaded();
    files_are_listed();
    files_change();
}
