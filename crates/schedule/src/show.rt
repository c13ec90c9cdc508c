// How calls and faults are printed.
ghost use Rattle.std.specs.Prelude.{◌≡◌, Some};
ghost use Rattle.schedule.specs.Lines.{call_text, fault_text, layer_number, refusal_number};

use crate::call::Call;
use crate::file::{Fault, Layer, Refusal};
use std::fmt;

impl From<Layer> for u8 {
    ghost from_gives = { λ layer n. n ≡ layer_number layer };

    fn from(layer: Layer) -> u8 {
        // no derive makes a number of an enum
        layer as u8
    }
}

impl From<Refusal> for u8 {
    ghost from_gives = { λ refusal n. n ≡ refusal_number refusal };

    fn from(refusal: Refusal) -> u8 {
        // no derive makes a number of an enum
        refusal as u8
    }
}

impl fmt::Display for Call {
    ghost output = { λ c. Some (call_text c) };

    fn fmt<W: fmt::Write>(&self, f: &mut fmt::Formatter<W>) -> fmt::Result {
        match self {
            Call::Offer {
                time,
                destination,
                kind,
                payload,
            } => write!(f, "o {time} {destination} {kind} {payload}"),
            Call::Deliver { index } => write!(f, "d {index}"),
            Call::Run { board } => write!(f, "r {board}"),
            Call::Outlook => write!(f, "g"),
            Call::Commit { most } => write!(f, "c {most}"),
        }
    }
}

impl fmt::Display for Fault {
    ghost output = { λ f. Some (fault_text f) };

    fn fmt<W: fmt::Write>(&self, f: &mut fmt::Formatter<W>) -> fmt::Result {
        let layer = u8::from(self.layer);
        let offset = self.offset;
        let number = u8::from(self.refusal);
        write!(f, "F {layer} {offset} {number}")
    }
}
