//! A list of words, some of them refused.
use super::*;
use codes::slots::{Slot, correct_list};
use cyclic::Cyclic;
use cyclic::name::Name;
use layers::parity::Parity;

fn slot(word: u64, verdict: Option<Cause>, message: u64, pattern: u64) -> Slot {
    Slot {
        word,
        verdict,
        message,
        pattern,
    }
}

#[test]
fn mixed_words(rt: HostRuntime) {
    let mut slots = [
        Slot::new(0x40006308),
        slot(0xf, None, 7, 7),
        slot(1 << 31, Some(Cause::BeyondReach), 7, 7),
        slot(3, Some(Cause::OutOfService), 7, 7),
    ];
    correct_list(&Cyclic::of(Name::Q31), &mut slots);
    assert_eq!(rt; slots[0], slot(0x40006308, None, 1, 0x40008001));
    assert_eq!(rt; slots[1], slot(0xf, Some(Cause::BeyondReach), 0, 0));
    assert_eq!(rt; slots[2], slot(1 << 31, Some(Cause::WordTooLong), 0, 0));
    assert_eq!(rt; slots[3], slot(3, None, 0, 3));
    assert_eq!(rt; slots[0].number(), 0);
    assert_eq!(rt; slots[1].number(), 4);
    assert_eq!(rt; slots[2].number(), 2);
}

#[test]
fn out_of_service(rt: HostRuntime) {
    let mut slots = [slot(0, None, 7, 7)];
    correct_list(
        &Parity::over(Parity::over(Cyclic::of(Name::Q41))),
        &mut slots,
    );
    assert_eq!(rt; slots[0], slot(0, Some(Cause::OutOfService), 0, 0));
}
