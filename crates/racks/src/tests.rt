// An address that no saver has is refused first, and the others reach their own savers.
use super::*;
use boards::{Board, FareComputer, Ticker};
use bus::Message;
use savers::{Checkpoints, FullCopies, Saver};
use std::test::Fail;

const TICK: Message = Message {
    time: 5,
    source: 0,
    number: 0,
    destination: 0,
    kind: bus::TICK,
    payload: 0,
};

#[test]
fn missing_address_is_refused_first(rt: HostRuntime) -> Result<(), Fail> {
    let left = One {
        saver: FullCopies::new(FareComputer::new()),
    };
    let right = One {
        saver: Checkpoints::new(Ticker::new()),
    };
    let mut rack = Pair { left, right };
    assert!(rt; rack.take(1, &TICK).is_ok());
    assert!(rt; rack.forget(1, 2).err().map(u8::from) == Some(28));
    assert!(rt; rack.forget(2, 2).err().map(u8::from) == Some(1));
    assert!(rt; rack.take(2, &TICK).err().map(u8::from) == Some(1));
    match (rack.words(0), rack.words(1)) {
        (Ok(fare), Ok(ticker)) => {
            assert!(rt; fare.w3 == 0 && ticker.w3 == 1);
            Ok(())
        },
        _ => Err(Fail::new("a saver is missing")),
    }
}
