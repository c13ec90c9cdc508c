// What both savers refuse, and what they still hold then.
use super::*;
use boards::{Board, Ticker};
use bus::Message;
use std::process::Abort;

const TICK: Message = Message {
    time: 5,
    source: 0,
    number: 0,
    destination: 0,
    kind: bus::TICK,
    payload: 0,
};

// Fills a saver of a ticker, whose last word counts the ticks.
fn refuses_past_its_ends<S: Saver>(rt: &impl Abort, saver: &mut S) {
    for _ in 0..CAPACITY {
        assert!(rt; saver.take(&TICK).is_ok());
    }
    assert!(rt; saver.take(&TICK).err().map(u8::from) == Some(27));
    assert!(rt; saver.back(33).err().map(u8::from) == Some(28));
    assert!(rt; saver.forget(33).err().map(u8::from) == Some(28));
    assert!(rt; saver.held() == 32 && saver.words().w3 == 32);
    assert!(rt; saver.forget(5).is_ok());
    assert!(rt; saver.back(9).is_ok());
    assert!(rt; saver.forget(10).err().map(u8::from) == Some(28));
    assert!(rt; saver.held() == 9 && saver.words().w3 == 14);
}

#[test]
fn full_copies_refuse(rt: HostRuntime) {
    refuses_past_its_ends(&rt, &mut FullCopies::new(Ticker::new()));
}

#[test]
fn checkpoints_refuse(rt: HostRuntime) {
    refuses_past_its_ends(&rt, &mut Checkpoints::new(Ticker::new()));
}
