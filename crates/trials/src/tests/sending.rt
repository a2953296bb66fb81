//! Tables out: the shortest and the longest, and each refusal.
use super::*;
use tables::sender::send;

#[test]
fn short_tables(rt: HostRuntime) {
    let mut words = [9; 4];
    assert_eq!(rt; send(&Cyclic::of(Name::G23), &[5], &mut words), Ok(2));
    assert_eq!(rt; words, [0xae3, 0x2868a, 9, 9]);
    assert_eq!(rt; send(&Cyclic::of(Name::G23), &[], &mut words), Ok(2));
    assert_eq!(rt; words, [0, 0, 9, 9]);
}

#[test]
fn longest_table(rt: HostRuntime) {
    let table = [0xff; 383];
    let mut words = [9; 257];
    assert_eq!(rt;
        send(&Cyclic::of(Name::G23), &table, &mut words),
        Err(at(Cause::TableTooLong, 0))
    );
    assert_eq!(rt; words, [9; 257]);
    assert_eq!(rt;
        send(&Cyclic::of(Name::G23), &table[0..382], &mut words),
        Ok(256)
    );
    assert_eq!(rt; words[255], 0x7fffff);
    assert_eq!(rt; words[256], 9);
}

#[test]
fn refusals(rt: HostRuntime) {
    let mut words = [9; 1];
    let nothing = Shortened::over(Cyclic::of(Name::G23), 12);
    let twice = Parity::over(Parity::over(Cyclic::of(Name::Q41)));
    assert_eq!(rt;
        send(&Cyclic::of(Name::G23), &[], &mut words),
        Err(at(Cause::TooShort, 0))
    );
    assert_eq!(rt;
        send(&nothing, &[], &mut words),
        Err(at(Cause::NoMessageBits, 0))
    );
    assert_eq!(rt;
        send(&twice, &[], &mut words),
        Err(at(Cause::OutOfService, 0))
    );
    assert_eq!(rt; words, [9]);
}
