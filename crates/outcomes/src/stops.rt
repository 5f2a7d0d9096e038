// Why a run stopped, in the record's fields.
ghost use Rattle.std.specs.Prelude.{◌≡◌};
ghost use Rattle.outcomes.specs.Telling.{Tells};
ghost use Rattle.outcomes.specs.Reasons.{stopping, named, unknown_piece};

use hosting::{Short, Stop};
use stream::{Kind, Reason, StopPiece};
use value::Val;

// A stop without a reason.
fn stopping(kind: Kind, address: Option<u64>, number: u64, value: Val) -> StopPiece
    ensures { result ≡ stopping kind address number value }
{
    StopPiece {
        kind,
        reason: None,
        address,
        number,
        node: 0,
        name: 0,
        value,
    }
}

// The number, the node and the name, of which one is what a reason names. (Nested as the definition's.)
fn named(reason: Reason, n: u64) -> (u64, (u64, u64))
    ensures { result ≡ named reason n }
{
    match reason {
        Reason::NoCase | Reason::UnknownValue => (n, (0, 0)),
        Reason::NoWidth => (0, (0, n)),
        Reason::ByZero => (0, (0, 0)),
        _ => (0, (n, 0)),
    }
}

// Why an evaluation ended short, at an address. For want of room no record is written.
fn unknown(address: Option<u64>, short: Short) -> StopPiece
    ensures { result ≡ unknown_piece address short }
{
    let Short::Why(reason, n) = short else {
        return stopping(Kind::Unknown, address, 0, stream::no_value());
    };
    let (number, (node, name)) = named(reason, n);
    StopPiece {
        reason: Some(reason),
        node,
        name,
        ..stopping(Kind::Unknown, address, number, stream::no_value())
    }
}

// The stop of a run that had so many units. (Beside the stop, of which only one case tells them.)
#[tactic(auto, using(crate::proofs::StopLaws::tells_stop))]
pub fn stop_piece(stop: Stop, limit: u64) -> StopPiece
    ensures { Tells limit stop result }
{
    let none = stream::no_value();
    match stop {
        Stop::Returned(None) => stopping(Kind::ReturnedNothing, None, 0, none),
        Stop::Returned(Some(v)) => stopping(Kind::Returned, None, 0, v),
        Stop::Steps => stopping(Kind::Steps, None, limit, none),
        Stop::Unknown(at, short) => unknown(at, short),
        Stop::NoBlock(b) => stopping(Kind::NoBlock, None, b, none),
        Stop::NoBlocks => stopping(Kind::NoBlocks, None, 0, none),
        Stop::NoReturn(at) => stopping(Kind::NoReturn, at, 0, none),
        Stop::Halted(at, target) => stopping(Kind::Halted, at, target, none),
    }
}
