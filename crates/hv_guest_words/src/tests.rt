//! Lines on guests and commands.
use super::*;
use hv_words::WordsRefusal;
use std::alloc::Global;

/// Whether a line is read as a command that is printed as this, or refused in these words.
fn reads(alloc: Global, line: &[u8], wanted: &[u8]) -> bool {
    match read_guest_line(alloc, line) {
        Ok(command) => match print_guest_command(alloc, &command) {
            Ok(text) => text.as_slice() == wanted,
            Err(_) => false,
        },
        Err(WordsRefusal::NoCommand) => wanted == b"none".as_slice(),
        Err(WordsRefusal::BadWords(3)) => wanted == b"bad 3".as_slice(),
        Err(WordsRefusal::BadWords(4)) => wanted == b"bad 4".as_slice(),
        Err(WordsRefusal::BadWords(5)) => wanted == b"bad 5".as_slice(),
        Err(WordsRefusal::BadWords(6)) => wanted == b"bad 6".as_slice(),
        Err(WordsRefusal::BadWords(_)) => false,
        Err(WordsRefusal::Memory(_)) => false,
    }
}

#[test]
fn reads_the_rows_of_guests(rt: HostRuntime) {
    guest_lines_are_unambiguous();
    guest_lines_say_what_is_told();
    for (line, wanted) in [
        (b" guest  list ".as_slice(), b"guest list".as_slice()),
        (b"guest list g0".as_slice(), b"bad 3".as_slice()),
        (
            b"guest create a/b\\n".as_slice(),
            b"guest create a/b\\n".as_slice(),
        ),
        (b"guest create".as_slice(), b"bad 3".as_slice()),
        (
            b"guest destroy g0".as_slice(),
            b"guest destroy g0".as_slice(),
        ),
        (b"guest destroy g0 g1".as_slice(), b"bad 4".as_slice()),
        (b"guest kick g0".as_slice(), b"guest kick g0".as_slice()),
        (b"guest resume g0".as_slice(), b"guest resume g0".as_slice()),
        (b"guest pause g0".as_slice(), b"guest pause g0".as_slice()),
        (b"guest halt g0".as_slice(), b"guest halt g0".as_slice()),
        (b"guest reset g0".as_slice(), b"guest reset g0".as_slice()),
        (b"guest reset".as_slice(), b"bad 3".as_slice()),
        (
            b"guest regions g0".as_slice(),
            b"guest regions g0".as_slice(),
        ),
        (b"guest fly g0".as_slice(), b"none".as_slice()),
        (b"guest".as_slice(), b"none".as_slice()),
    ] {
        assert!(rt; reads(rt.alloc(), line, wanted));
    }
}

#[test]
fn reads_the_rows_of_regions_and_memory(rt: HostRuntime) {
    for (line, wanted) in [
        (
            b"guest region_add g0 plic@c000000".as_slice(),
            b"guest region_add g0 plic@c000000".as_slice(),
        ),
        (b"guest region_add g0".as_slice(), b"bad 4".as_slice()),
        (b"guest region_del g0 ram x".as_slice(), b"bad 5".as_slice()),
        (
            b"guest region_del g0 ram".as_slice(),
            b"guest region_del g0 ram".as_slice(),
        ),
        (
            b"guest mem g0 0x80000400 0256".as_slice(),
            b"guest mem g0 2147484672 256".as_slice(),
        ),
        (b"guest mem g0 0 257".as_slice(), b"bad 5".as_slice()),
        (b"guest mem g0 1 0".as_slice(), b"bad 5".as_slice()),
        (
            b"guest mem g0 0x10000000000000000 1".as_slice(),
            b"bad 4".as_slice(),
        ),
        (
            b"vfs guest_load g0 / 0xffffffffffffffff".as_slice(),
            b"vfs guest_load g0 / 18446744073709551615".as_slice(),
        ),
        (b"vfs guest_load g0 p 0".as_slice(), b"bad 4".as_slice()),
        (b"vfs guest_load g0 /p y".as_slice(), b"bad 5".as_slice()),
        (b"vfs guest_load g0 /p 0 0".as_slice(), b"bad 6".as_slice()),
        (b"vfs ls /".as_slice(), b"none".as_slice()),
    ] {
        assert!(rt; reads(rt.alloc(), line, wanted));
    }
}

#[test]
fn reads_the_rows_of_vcpus_and_serial_devices(rt: HostRuntime) {
    for (line, wanted) in [
        (b"vcpu list".as_slice(), b"vcpu list".as_slice()),
        (b"vcpu kick 0x20".as_slice(), b"vcpu kick 32".as_slice()),
        (b"vcpu resume 33".as_slice(), b"bad 3".as_slice()),
        (b"vcpu pause 1".as_slice(), b"vcpu pause 1".as_slice()),
        (b"vcpu halt x".as_slice(), b"bad 3".as_slice()),
        (b"vcpu reset 2 3".as_slice(), b"bad 4".as_slice()),
        (b"vcpu dump 007".as_slice(), b"vcpu dump 7".as_slice()),
        (
            b"vserial send g0 uart0 a\\x41\\s".as_slice(),
            b"vserial send g0 uart0 aA\\s".as_slice(),
        ),
        (b"vserial send g0 uart0".as_slice(), b"bad 5".as_slice()),
        (b"vserial send g0 uart0 \\q".as_slice(), b"bad 5".as_slice()),
        (
            b"vserial dump g0 uart0".as_slice(),
            b"vserial dump g0 uart0".as_slice(),
        ),
        (b"vserial dump g0".as_slice(), b"bad 4".as_slice()),
        (b"vserial dump g0\r".as_slice(), b"none".as_slice()),
    ] {
        assert!(rt; reads(rt.alloc(), line, wanted));
    }
}
