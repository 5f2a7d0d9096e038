// What a constant expression's evaluation comes to, as a caller is given it.
ghost use Rattle.std.specs.Prelude.{◌≡◌};
ghost use Rattle.definition.specs.Answered.{val_of};
ghost use Rattle.files.specs.Refusal.{refused};
ghost use Rattle.emulate.specs.Giving.{answer_of, value_in};

use super::Constant;
use files::refusal::Refusal;
use hosting::Short;
use value::Val;

impl From<Result<Option<Val>, Refusal>> for Constant {
    ghost from_gives = { λ r k. (k.refusal ≡ (refused r).number) × (val_of k.known k.signed k.bits k.number ≡ value_in r) };

    fn from(r: Result<Option<Val>, Refusal>) -> Constant {
        match r {
            Ok(Some(v)) => Constant {
                refusal: 0,
                known: v.known,
                signed: v.signed,
                bits: v.bits,
                number: v.number,
            },
            Ok(None) => Constant::default(),
            Err(refusal) => Constant {
                refusal: refusal.into(),
                number: refusal.node().into(),
                ..Constant::default()
            },
        }
    }
}

// The value that an evaluation gave, if it is known. One that ended short has none, and is refused where the workspace had no room for another
// written address.
pub fn known_only(outcome: Result<Val, Short>) -> Result<Option<Val>, Refusal>
    ensures { result ≡ answer_of outcome }
{
    match outcome {
        Ok(v) => Ok(v.known.then_some(v)),
        Err(Short::Full) => Err(Refusal::Addresses),
        Err(Short::Why(_, _)) => Ok(None),
    }
}
