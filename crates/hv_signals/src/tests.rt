//! Signals of a body, kept and compared.

use super::*;
use hv_body::Body;
use hv_kinds::{Pins, SignalChanges};
use std::test::Fail;

const LOW: Pins = Pins {
    ext: false,
    soft: false,
    timer: false,
};

#[test]
fn tells_which_pins_have_changed(rt: HostRuntime) -> Result<(), Fail> {
    let body = Body::new(rt.alloc())?;
    let before = Signals::of(&body);
    let mut after = before;
    after.pins[1].timer = true;
    after.pins[3].ext = true;
    let changed = changes(before, after);
    assert!(rt;
        changed
            == SignalChanges {
                line: false,
                pins: 0xa
            }
    );
    assert!(rt; before.pins[3] == LOW);
    assert!(rt; parent_of(&body) == None);
    assert!(rt; !is_born(&body, 0));
    Ok(())
}
