//! Words in: reports of no, 255 and 256 places, and each refusal.
use super::*;
use link::receiver::{Answer, Receiver};
use link::report::Place;

fn settled(place: usize, message: u64, pattern: u64) -> Answer {
    Answer::Settled {
        place,
        message,
        pattern,
    }
}

#[test]
fn offers_and_repeats(rt: HostRuntime) {
    let mut receiver = Receiver::new(Cyclic::of(Name::Q31));
    assert_eq!(rt; receiver.count(), 0);
    assert_eq!(rt; receiver.place(0), None);
    assert_eq!(rt; receiver.offer(0x40006308), Ok(settled(0, 1, 0x40008001)));
    assert_eq!(rt; receiver.offer(0xf), Ok(Answer::Gap { place: 1 }));
    assert_eq!(rt; receiver.offer(1 << 31), Err(at(Cause::WordTooLong, 2)));
    assert_eq!(rt; receiver.repeat(0, 0), Err(at(Cause::NotAGap, 0)));
    assert_eq!(rt; receiver.repeat(2, 0), Err(at(Cause::NotAGap, 2)));
    assert_eq!(rt; receiver.repeat(7, 1 << 31), Err(at(Cause::WordTooLong, 7)));
    assert_eq!(rt; receiver.repeat(1, 0x1f), Ok(Answer::Gap { place: 1 }));
    assert_eq!(rt; receiver.repeat(1, 0xe308), Ok(settled(1, 1, 1)));
    assert_eq!(rt; receiver.place(1), Some(Place::Settled(1)));
    assert_eq!(rt; receiver.count(), 2);
    assert_eq!(rt; receiver.seal().close(), Some(64));
}

#[test]
fn full_report(rt: HostRuntime) {
    let mut receiver = Receiver::new(Cyclic::of(Name::G23));
    for _ in 0..255 {
        let _ = receiver.offer(0xae3);
    }
    assert_eq!(rt; receiver.count(), 255);
    assert_eq!(rt; receiver.offer(0xae3), Ok(settled(255, 1, 0)));
    assert_eq!(rt; receiver.offer(0xae3), Err(at(Cause::ReportFull, 256)));
    assert_eq!(rt; receiver.offer(1 << 23), Err(at(Cause::WordTooLong, 256)));
    assert_eq!(rt; receiver.count(), 256);
    receiver.clear();
    assert_eq!(rt; receiver.count(), 0);
    assert_eq!(rt; receiver.seal().close(), None);
}

#[test]
fn out_of_service(rt: HostRuntime) {
    let mut receiver = Receiver::new(Parity::over(Parity::over(Cyclic::of(Name::Q41))));
    assert_eq!(rt; receiver.offer(u64::MAX), Err(at(Cause::OutOfService, 0)));
    assert_eq!(rt; receiver.repeat(3, 0), Err(at(Cause::OutOfService, 3)));
    receiver.clear();
    assert_eq!(rt; receiver.seal().close(), None);
}
