// Rows that hold operands and answer. A value has 10 bytes: flags u8 (1 known, 2 signed, 4 a division by zero), width u8, number u64.
use crate::Cases;
use anyhow::ensure;
use bytes::Buf;
use value::{ArithmeticError, BinaryOp, Ty, Val};

pub const MIXED: Cases = Cases {
    what: "operands of any width",
    path: "mixed.bin",
    length: 31,
    rows: 4000,
    together: 1,
};

pub const CASTS: Cases = Cases {
    what: "casts",
    path: "casts.bin",
    length: 22,
    rows: 1536,
    together: 1,
};

pub const TYPES: Cases = Cases {
    what: "spellings of types",
    path: "types.bin",
    length: 69,
    rows: 314,
    together: 1,
};

fn take_answer(row: &mut &[u8]) -> anyhow::Result<Result<Val, ArithmeticError>> {
    let flags = row.try_get_u8()?;
    let bits = row.try_get_u8()? as u32;
    let number = row.try_get_u64_le()?;
    if 4 <= flags {
        return Ok(Err(ArithmeticError::DivisionByZero));
    }
    Ok(Ok(Val {
        known: flags % 2 == 1,
        signed: flags / 2 % 2 == 1,
        bits,
        number,
    }))
}

fn take_operand(row: &mut &[u8]) -> anyhow::Result<Val> {
    let flags = row.try_get_u8()?;
    let ty = Ty::new(row.try_get_u8()? as u32, flags / 2 % 2 == 1);
    let number = row.try_get_u64_le()?;
    Ok(if flags % 2 == 1 {
        Val::known(number, ty)
    } else {
        Val::unknown(ty)
    })
}

// width u8, signed u8
fn take_type(row: &mut &[u8]) -> anyhow::Result<Ty> {
    let bits = row.try_get_u8()? as u32;
    Ok(Ty::new(bits, row.try_get_u8()? == 1))
}

// operator u8, left, right, answer
pub fn mixed(mut row: &[u8]) -> anyhow::Result<bool> {
    let op = BinaryOp::from(row.try_get_u8()?);
    let left = take_operand(&mut row)?;
    let right = take_operand(&mut row)?;
    Ok(value::binary(op, left, right) == take_answer(&mut row)?)
}

// operand, type, answer
pub fn cast(mut row: &[u8]) -> anyhow::Result<bool> {
    let operand = take_operand(&mut row)?;
    let ty = take_type(&mut row)?;
    Ok(take_answer(&mut row)? == Ok(operand.cast(ty)))
}

// length u8, 64 bytes of spelling, its type, and the type of what it points at (of width 0 if it is no pointer's)
// The original knows no bool, so only width and sign are compared.
pub fn spelled(mut row: &[u8]) -> anyhow::Result<bool> {
    let length = row.try_get_u8()? as usize;
    let mut text = [0u8; 64];
    row.try_copy_to_slice(&mut text)?;
    ensure!(length <= 64, "a spelling is too long");
    let spelling = &text[..length];
    let ty = take_type(&mut row)?;
    let pointee = take_type(&mut row)?;
    let points = (pointee.bits != 0).then_some(pointee);
    let points_at = spelling::points_at(spelling).map(|ty| ty.plain());
    Ok(spelling::type_of(spelling).plain() == ty && points_at == points)
}
