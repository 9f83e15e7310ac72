//! Lines of some forms, both ways. The words are those of the GNU assembler, and the other forms
//! stand in examples/all-instructions.
use super::*;
use hv_text::Bytes;
use std::test::Fail;

#[test]
fn forms_both_ways(rt: HostRuntime) -> Result<(), Fail> {
    let cases: [(&[u8], u32); 13] = [
        (b"add x1, x2, x3", 0x003100b3),
        (b"sltiu x29, x2, -2048", 0x80013e93),
        (b"srai x8, x18, 33", 0x42195413),
        (b"jalr x3, 0(x30)", 0x000f01e7),
        (b"ld x7, -2048(x26)", 0x800d3383),
        (b"sb x9, -1(x15)", 0xfe978fa3),
        (b"bge x4, x20, -4096", 0x81425063),
        (b"jal x1, 16", 0x010000ef),
        (b"auipc x6, 0xfffff", 0xfffff317),
        (b"csrrw x1, 0x305, x2", 0x305110f3),
        (b"csrrci x6, 0xf14, 31", 0xf14ff373),
        (b"mret", 0x30200073),
        (b".word 0xffffffff", 0xffffffff),
    ];
    for (line, word) in cases {
        assert_eq!(rt; read_asm(line), Ok(Some(word)), "{word:x}");
        let mut text = Bytes::from_vec(Vec::new(rt.alloc()));
        print_asm(rt.alloc(), &mut text, word)?;
        assert_eq!(rt; text.as_slice(), line, "{word:x}");
    }
    Ok(())
}

#[test]
fn lines_of_no_form(rt: HostRuntime) {
    let cases: [&[u8]; 4] = [
        b"addi x0, x31, 2048",
        b"beq x31, x31, 3",
        b"add x01, x2, x3",
        b"lui x31, 0x100000",
    ];
    for (at, line) in cases.iter().enumerate() {
        assert_eq!(rt; read_asm(line), Err(BadLineAsm), "case {at}");
    }
    assert_eq!(rt; read_asm(b"\t# add x1, x2, x3"), Ok(None));
}

#[test]
fn texts_and_their_bytes(rt: HostRuntime) -> Result<(), Fail> {
    let text = b"addi x5, x0, -1\r\n# rest\n\nwfi";
    match assemble(rt.alloc(), text) {
        Ok(bytes) => assert_eq!(rt;
            bytes.as_slice(),
            b"\x93\x02\xf0\xff\x73\0\x50\x10".as_slice()
        ),
        Err(_) => assert!(rt; false),
    }
    match assemble(rt.alloc(), b"ecall\r\necall\r") {
        Err(AsmRefusal::BadAsm(line)) => assert_eq!(rt; line, 2),
        _ => assert!(rt; false),
    }
    texts_assemble_one_way();
    each_text_assembles_or_has_a_bad_line(text);
    Ok(())
}
