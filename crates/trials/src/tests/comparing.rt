//! Two runs, compared.
use super::*;
use runs::calls::{Call, compare};

/// Words that agree give equal reports, whatever was cleared or refused before.
#[test]
fn equal_reports(rt: HostRuntime) {
    let calls = [Call::Offer { word: 0xe309 }, Call::Offer { word: 0xf }];
    let others = [
        Call::Offer { word: 7 },
        Call::Clear,
        Call::Offer { word: 1 << 31 },
        Call::Offer { word: 0xe308 },
        Call::Repeat { place: 0, word: 0 },
        Call::Offer { word: 0x1f },
    ];
    assert!(rt;
        compare(
            Cyclic::of(Name::Q31),
            &calls,
            Cyclic::of(Name::Q31),
            &others
        )
        .equal
    );
}

/// A gap that is settled by a repeat makes the difference.
#[test]
fn different_reports(rt: HostRuntime) {
    let calls = [Call::Offer { word: 0xf }];
    let others = [
        Call::Offer { word: 0xf },
        Call::Repeat { place: 0, word: 0 },
    ];
    assert!(rt;
        !compare(
            Cyclic::of(Name::Q31),
            &calls,
            Cyclic::of(Name::Q31),
            &others
        )
        .equal
    );
    assert!(rt; !compare(Cyclic::of(Name::Q31), &calls, Cyclic::of(Name::Q31), &[]).equal);
}
