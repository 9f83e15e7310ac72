//! Sources and texts that are none, worked out by hand from the grammar.
use super::*;
use std::alloc::Global;

fn verdict(alloc: Global, text: &[u8]) -> (u8, usize) {
    match source_tokens(alloc, text) {
        Ok(tokens) => (0, tokens.len()),
        Err(SyntaxRefusal::BadToken(at)) => (1, at),
        Err(SyntaxRefusal::Unexpected(at)) => (2, at),
        Err(SyntaxRefusal::Memory(_)) => (3, 0),
    }
}

#[test]
fn refuses_at_the_first_token_that_may_not_stand(rt: HostRuntime) {
    let rows: [(&[u8], (u8, usize)); 26] = [
        (b"/dts-v1/; / { };", (0, 6)),
        (b"/dts-v1/;/{a;b=<1 &c>,\"d\",[0 0],&e;};", (1, 27)),
        (b"/dts-v1/;/{a;b=<1 &c>,\"d\",[00],&e;};", (0, 23)),
        (b"/dts-v1/;/{x:y:a{b;};};", (0, 14)),
        (b"/dts-v1/; / { a { }; b = <1>; };", (2, 23)),
        (b"/dts-v1/; / { a { }; b? { }; };", (2, 21)),
        (b"/dts-v1/; / { a? { }; };", (2, 17)),
        (b"/dts-v1/; / { a@1 = <1>; };", (2, 18)),
        (b"/dts-v1/; / { a@1,b? { }; };", (2, 14)),
        (b"/dts-v1/; / { a@ { }; };", (2, 14)),
        (b"", (2, 0)),
        (b"  // a", (2, 6)),
        (b"/ { };", (2, 0)),
        (b"/dts-v1/ / { };", (2, 9)),
        (b"/dts-v1/; l: / { };", (2, 10)),
        (b"/dts-v1/; / { }", (2, 15)),
        (b"/dts-v1/; / { }; / { };", (2, 17)),
        (b"/dts-v1/; / { }; }", (2, 17)),
        (b"/dts-v1/; / { a = ; };", (2, 18)),
        (b"/dts-v1/; / { a = <1>, ; };", (2, 23)),
        (b"/dts-v1/; / { a = <1 };", (1, 21)),
        (b"/dts-v1/; / { a = <\"b\">; };", (2, 19)),
        (b"/dts-v1/; / { } * ;", (1, 16)),
        (b"/dts-v1/; / { a = \"b; };", (1, 18)),
        (b"/dts-v1/; / { }; /* a", (1, 17)),
        (b"/dts-v1/; / { x: };", (2, 17)),
    ];
    for (text, want) in rows {
        assert!(rt;
            verdict(rt.alloc(), text) == want,
            "at {}",
            text.escape_ascii()
        );
    }
}

// How many entries there are, or 100.
fn count(alloc: Global, text: &[u8]) -> usize {
    match read_entries(alloc, text) {
        Ok(entries) => entries.as_slice().len(),
        Err(_) => 100,
    }
}

#[test]
fn counts_entries(rt: HostRuntime) {
    let rows: [(&[u8], usize); 5] = [
        (b"/dts-v1/; / { };", 0),
        (b"/dts-v1/; / { a; };", 1),
        (b"/dts-v1/; / { a { }; b { c = <1 &d>; }; };", 5),
        (b"/dts-v1/; / { a; d: e { }; };", 3),
        (b"/dts-v1/; / { a { }; b; };", 100),
    ];
    for (text, want) in rows {
        assert!(rt;
            count(rt.alloc(), text) == want,
            "at {}",
            text.escape_ascii()
        );
    }
}
