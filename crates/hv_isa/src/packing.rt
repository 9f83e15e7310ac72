//! Words of each format from their fields.

ghost use Rattle.std.specs.Prelude.{◌≡◌, ℕ, ◌+◌, ◌-◌, ◌*◌, ◌/◌, ◌%◌, ◌^◌, ◌<◌};
ghost use Rattle.hv_exec.specs.Fields.{HasFields, IsImmediate, IsOffset, IsSigned};
ghost use Rattle.hv_exec.specs.Numbers.{signed};
ghost use Rattle.hv_isa.specs.Packing.{IsRWord, IsShiftWord, IsFieldWord, IsIWord, IsSWord, IsBWord, IsUWord, IsJWord};

pub(crate) fn r_word(opcode: u32, funct3: u32, funct7: u32, rd: u8, rs1: u8, rs2: u8) -> u32
    requires opcode { opcode < 2 ^ 7 }
    requires funct3 { funct3 < 2 ^ 3 }
    requires funct7 { funct7 < 2 ^ 7 }
    requires fields { HasFields rd rs1 rs2 32 }
    ensures { IsRWord result opcode funct3 funct7 rd rs1 rs2 }
{
    let low = opcode + u32::from(rd) * 0x80 + funct3 * 0x1000 + u32::from(rs1) * 0x8000;
    low + u32::from(rs2) * 0x10_0000 + funct7 * 0x200_0000
}

pub(crate) fn shift_word(opcode: u32, funct3: u32, funct6: u32, rd: u8, rs1: u8, amount: u8) -> u32
    requires opcode { opcode < 2 ^ 7 }
    requires funct3 { funct3 < 2 ^ 3 }
    requires funct6 { funct6 < 2 ^ 6 }
    requires fields { HasFields rd rs1 amount 64 }
    ensures { IsShiftWord result opcode funct3 funct6 rd rs1 amount }
{
    let low = opcode + u32::from(rd) * 0x80 + funct3 * 0x1000 + u32::from(rs1) * 0x8000;
    low + u32::from(amount) * 0x10_0000 + funct6 * 0x400_0000
}

pub(crate) fn field_word(opcode: u32, funct3: u32, rd: u8, rs1: u8, field: u16) -> u32
    requires opcode { opcode < 2 ^ 7 }
    requires funct3 { funct3 < 2 ^ 3 }
    requires fields { HasFields rd rs1 field (2 ^ 12) }
    ensures { IsFieldWord result opcode funct3 rd rs1 field }
{
    let low = opcode + u32::from(rd) * 0x80 + funct3 * 0x1000 + u32::from(rs1) * 0x8000;
    low + u32::from(field) * 0x10_0000
}

pub(crate) fn i_word(opcode: u32, funct3: u32, rd: u8, rs1: u8, imm: i32) -> u32
    requires opcode { opcode < 2 ^ 7 }
    requires funct3 { funct3 < 2 ^ 3 }
    requires fields { IsImmediate rd rs1 imm }
    ensures { IsIWord result opcode funct3 rd rs1 imm }
{
    let low = opcode + u32::from(rd) * 0x80 + funct3 * 0x1000 + u32::from(rs1) * 0x8000;
    low + raw_12(imm) * 0x10_0000
}

pub(crate) fn s_word(opcode: u32, funct3: u32, rs1: u8, rs2: u8, imm: i32) -> u32
    requires opcode { opcode < 2 ^ 7 }
    requires funct3 { funct3 < 2 ^ 3 }
    requires fields { IsImmediate rs1 rs2 imm }
    ensures { IsSWord result opcode funct3 rs1 rs2 imm }
{
    let raw = raw_12(imm);
    let low = opcode + raw % 32 * 0x80 + funct3 * 0x1000 + u32::from(rs1) * 0x8000;
    low + u32::from(rs2) * 0x10_0000 + raw / 32 * 0x200_0000
}

pub(crate) fn b_word(opcode: u32, funct3: u32, rs1: u8, rs2: u8, offset: i32) -> u32
    requires opcode { opcode < 2 ^ 7 }
    requires funct3 { funct3 < 2 ^ 3 }
    requires one { rs1 < 32 }
    requires other { rs2 < 32 }
    requires offset { IsOffset 13 offset }
    ensures { IsBWord result opcode funct3 rs1 rs2 offset }
{
    let raw = raw_13(offset);
    let low = opcode + raw / 2048 % 2 * 0x80 + raw / 2 % 16 * 0x100 + funct3 * 0x1000;
    let sources = low + u32::from(rs1) * 0x8000 + u32::from(rs2) * 0x10_0000;
    sources + raw / 32 % 64 * 0x200_0000 + raw / 4096 * 0x8000_0000
}

pub(crate) fn u_word(opcode: u32, rd: u8, imm: u32) -> u32
    requires opcode { opcode < 2 ^ 7 }
    requires rd { rd < 32 }
    requires imm { imm < 2 ^ 20 }
    ensures { IsUWord result opcode rd imm }
{
    opcode + u32::from(rd) * 0x80 + imm * 0x1000
}

pub(crate) fn j_word(opcode: u32, rd: u8, offset: i32) -> u32
    requires opcode { opcode < 2 ^ 7 }
    requires rd { rd < 32 }
    requires offset { IsOffset 21 offset }
    ensures { IsJWord result opcode rd offset }
{
    let raw = raw_21(offset);
    let low = opcode + u32::from(rd) * 0x80 + raw / 4096 % 256 * 0x1000;
    low + raw / 2048 % 2 * 0x10_0000 + raw / 2 % 1024 * 0x20_0000 + raw / 0x10_0000 * 0x8000_0000
}

fn raw_12(imm: i32) -> u32
    requires { IsSigned 12 imm }
    ensures fits { result < 2 ^ 12 }
    ensures reads { signed 12 result ≡ imm }
{
    if imm < 0 {
        (imm + 0x1000) as u32
    } else {
        imm as u32
    }
}

fn raw_13(offset: i32) -> u32
    requires { IsOffset 13 offset }
    ensures fits { result < 2 ^ 13 }
    ensures even { result % 2 ≡ 0 }
    ensures reads { signed 13 result ≡ offset }
{
    if offset < 0 {
        (offset + 0x2000) as u32
    } else {
        offset as u32
    }
}

fn raw_21(offset: i32) -> u32
    requires { IsOffset 21 offset }
    ensures fits { result < 2 ^ 21 }
    ensures even { result % 2 ≡ 0 }
    ensures reads { signed 21 result ≡ offset }
{
    if offset < 0 {
        (offset + 0x20_0000) as u32
    } else {
        offset as u32
    }
}
