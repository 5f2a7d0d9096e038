// Why a run stopped. Where no name is told, a contract speaks of no names (`[]`).
ghost use Rattle.std.specs.Prelude.{[]};
ghost use Rattle.layout.specs.Text.{text};
ghost use Rattle.definition.specs.Numerals.{decimal};
ghost use Rattle.definition.specs.Listing.{stopped_text, node_text};
ghost use Rattle.text.specs.Told.{why_said, stop_said};
ghost use Rattle.text.specs.Pushed.{Room, Pushed};

use crate::bodies::Name;
use crate::line::Line;
use value::{Ty, Val};

// The reason that an evaluation ended short, with the node, the value, the address or the name that it names. (It and `Stop` are what a record tells: a run's own,
// in `hosting`, has one number for all that a reason may name, may end for want of room, and does not know its limit.)
#[derive(Clone, Copy)]
pub enum Why<'a> {
    BranchUnknown(u64),
    SwitchUnknown(u64),
    NoCase(u64),
    StructTo(u64),
    UnknownAddress(u64),
    UnknownValue(u64),
    NoWidth(Name<'a>),
    StoreTo(u64),
    ByZero,
}

// Why a run stopped: a value that it returned, if any; the limit of steps; where and for which reason; a block that there is not; where
// the call is that does not return; where and at which address what is not analyzed.
#[derive(Clone, Copy)]
pub enum Stop<'a> {
    Returned(Option<Val>),
    Steps(u64),
    Unknown(Option<u64>, Why<'a>),
    NoBlock(u64),
    NoBlocks,
    NoReturn(Option<u64>),
    Halted(Option<u64>, u64),
}

impl<'a> Line<'a> {
    fn node(&mut self, node: u64)
        requires { Room self.old (node_text node) }
        ensures { Pushed self.old self.new (node_text node) }
    {
        self.text(b"node ");
        self.decimal(node);
    }

    // The reason.
    pub fn why(&mut self, why: Why)
        requires { Room self.old (why_said why) }
        ensures { Pushed self.old self.new (why_said why.entry) }
    {
        match why {
            Why::BranchUnknown(node) => {
                self.text(b"the branch on ");
                self.node(node);
                self.text(b" depends on an unknown value");
            }
            Why::SwitchUnknown(node) => {
                self.text(b"the switch on ");
                self.node(node);
                self.text(b" depends on an unknown value");
            }
            Why::NoCase(value) => {
                self.text(b"no case of the switch takes ");
                self.integer(Ty::I64, value);
            }
            Why::StructTo(node) => {
                self.text(b"a struct stored to ");
                self.node(node);
            }
            Why::UnknownAddress(node) => {
                self.text(b"the store through ");
                self.node(node);
                self.text(b" goes to an unknown address");
            }
            Why::UnknownValue(address) => {
                self.text(b"an unknown value stored at ");
                self.hexadecimal(address);
            }
            Why::NoWidth(name) => {
                self.text(b"a store to ");
                self.name(name);
                self.text(b", whose width the image does not say");
            }
            Why::StoreTo(node) => {
                self.text(b"a store to ");
                self.node(node);
            }
            Why::ByZero => self.text(b"a division by zero"),
        }
    }

    // That a run stopped, and where.
    fn stopped(&mut self, address: Option<u64>)
        requires { Room self.old (stopped_text [] address) }
        ensures { Pushed self.old self.new (stopped_text [] address) }
    {
        let Some(a) = address else {
            return self.text(b"stopped: ");
        };
        self.text(b"stopped at ");
        self.hexadecimal(a);
        self.text(b": ");
    }

    pub fn stop(&mut self, stop: Stop)
        requires { Room self.old (stop_said stop) }
        ensures { Pushed self.old self.new (stop_said stop.entry) }
    {
        match stop {
            Stop::Returned(None) => self.text(b"returned"),
            Stop::Returned(Some(v)) => {
                self.text(b"returned ");
                self.value(v);
            }
            Stop::Steps(limit) => {
                self.text(b"stopped after ");
                self.decimal(limit);
                self.text(b" steps");
            }
            Stop::Unknown(address, why) => {
                self.stopped(address);
                self.why(why);
            }
            Stop::NoBlock(block) => {
                self.text(b"stopped: no block ");
                self.decimal(block);
            }
            Stop::NoBlocks => {
                self.text(b"stopped: the function has no blocks at the medium level")
            }
            Stop::NoReturn(address) => {
                self.stopped(address);
                self.text(b"the call does not return");
            }
            Stop::Halted(address, target) => {
                self.stopped(address);
                self.hexadecimal(target);
                self.text(b" is not analyzed");
            }
        }
    }
}
