// How a message is printed: its six fields in decimal, one space between them.
ghost use Rattle.std.specs.Prelude.{Some};
ghost use Rattle.bus.specs.Lines.{fields};

use crate::Message;
use std::fmt;

impl fmt::Display for Message {
    ghost output = { λ m. Some (fields m) };

    fn fmt<W: fmt::Write>(&self, f: &mut fmt::Formatter<W>) -> fmt::Result {
        let Message {
            time,
            source,
            number,
            destination,
            kind,
            payload,
        } = self;
        write!(f, "{time} {source} {number} {destination} {kind} {payload}")
    }
}
