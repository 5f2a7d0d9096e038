// Operands of one width: every operator over the same ten numbers, in a fixed order, so that a row holds only the answer:
// what it is (0 unsigned, 1 signed, 2 and 3 the same unknown, 4 a division by zero) u8, number u64.
use crate::Cases;
use bytes::Buf;
use value::{ArithmeticError, BinaryOp, Ty, Val};

// 18 operators over 10 by 10 numbers, for each of 32 groups, which has one width and one pair of signs.
const GROUP: usize = 1800;

pub const CASES: Cases = Cases {
    what: "operands of one width",
    path: "equal.bin",
    length: 9,
    rows: 32 * GROUP,
    together: GROUP,
};

// The numbers that both operands take at a width.
fn number(i: usize, width: u32) -> u64 {
    let all = value::width::mask(width);
    match i {
        0 => 0,
        1 => 1,
        2 => 2,
        3 => 127,
        4 => 128,
        5 => 255,
        6 => 256,
        7 => all / 2,
        8 => all / 2 + 1,
        _ => all,
    }
}

// The answer that a row holds, of a width.
fn answer(mut row: &[u8], bits: u32) -> anyhow::Result<Result<Val, ArithmeticError>> {
    let code = row.try_get_u8()?;
    let number = row.try_get_u64_le()?;
    if code == 4 {
        return Ok(Err(ArithmeticError::DivisionByZero));
    }
    Ok(Ok(Val {
        known: code < 2,
        signed: code % 2 == 1,
        bits,
        number,
    }))
}

pub fn agrees(i: usize, row: &[u8]) -> anyhow::Result<bool> {
    let group = i / GROUP % 32;
    let k = i % GROUP;
    let width = group as u32 / 4 * 8 + 8;
    let left = Val::known(
        number(k / 10 % 10, width),
        Ty::new(width, group / 2 % 2 == 1),
    );
    let right = Val::known(number(k % 10, width), Ty::new(width, group % 2 == 1));
    let op = k / 100;
    let bits = if 10 <= op { 8 } else { width };
    Ok(value::binary(BinaryOp::from(op as u8), left, right) == answer(row, bits)?)
}
