//! A step at the last stamp.
use crate::files::FileCell;
use crate::scripts::OpenScripts;
use crate::stop::Stop;
use crate::terminal::Terminal;
use crate::turn::take_step;
use hv_files::FileTree;
use hv_text::{Bytes, GREATEST_STAMP};
use std::test::Fail;

#[test]
fn makes_no_event_past_the_last_stamp(rt: HostRuntime) -> Result<(), Fail> {
    let alloc = rt.alloc();
    let mut files = FileCell {
        tree: FileTree::new(alloc)?,
        stamp: 0,
    };
    let mut terminal = Terminal {
        number: 1,
        count: 7,
        stamp: GREATEST_STAMP,
        asked: 2,
        rests: 2,
        boot: OpenScripts::new(alloc),
        own: OpenScripts::new(alloc),
        lines: 1,
        shown: Bytes::from_vec(Vec::new(alloc)),
    };
    let made = take_step(alloc, &mut files, &mut terminal);
    assert!(rt; matches!(made, Err(Stop::Spent(GREATEST_STAMP))));
    assert_eq!(rt; terminal.count, 7);
    Ok(())
}
