//! The words of refusals, printed and read.
use super::*;
use hv_data::{WordRefusal, split_at_byte};
use hv_text::Bytes;
use std::test::Fail;

/// Refusals with words behind them of each kind, as they are written by hand.
const TEXTS: [&[u8]; 6] = [
    b"NoEntry",
    b"BadWords 3",
    b"GuestState Ending",
    b"BadNode /guests/g,0/aspace/uart@10000000 SourceUsed",
    b"Overlap 15",
    b"WrongState Paused",
];

#[test]
fn reads_what_it_prints(rt: HostRuntime) -> Result<(), Fail> {
    for text in TEXTS {
        let words = split_at_byte(rt.alloc(), text, b' ')?;
        match read_refusal(rt.alloc(), &words) {
            Ok(why) => {
                let mut printed = Bytes::from_vec(Vec::new(rt.alloc()));
                print_refusal(rt.alloc(), &mut printed, &why)?;
                assert_eq!(rt; printed.as_slice(), text);
            }
            Err(_) => assert!(rt; false, "text {text:?}"),
        }
    }
    Ok(())
}

#[test]
fn refuses_other_words(rt: HostRuntime) -> Result<(), Fail> {
    let texts: [&[u8]; 4] = [
        b"NoEntry 1",
        b"BadWords 03",
        b"BadNode /guests/g0/ Form",
        b"WrongState Running0",
    ];
    for text in texts {
        let words = split_at_byte(rt.alloc(), text, b' ')?;
        assert!(rt;
            matches!(read_refusal(rt.alloc(), &words), Err(WordRefusal::BadWord)),
            "text {text:?}"
        );
    }
    refusals_are_unambiguous();
    Ok(())
}
