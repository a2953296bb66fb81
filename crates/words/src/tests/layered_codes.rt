//! Layers, and piles of them. The expected answers are from a search through all patterns of at most t flips.
use super::*;
use cyclic::Cyclic;
use cyclic::name::Name;
use layers::parity::Parity;
use layers::shortened::Shortened;

#[test]
fn one_layer() -> Result<(), Fail> {
    let parity = Parity::over(Cyclic::of(Name::G23));
    encodes(&parity, 1, 0x15c7)?;
    refuses(&parity, 0x1e, Cause::BeyondReach)?;
    corrects(&parity, 0x1f, 0x402, 0x402400)?;
    corrects(
        &Shortened::over(Cyclic::of(Name::G23), 1),
        0xf,
        0x402,
        0x201200,
    )?;
    refuses(
        &Shortened::over(Cyclic::of(Name::G23), 2),
        0xf,
        Cause::BeyondReach,
    )?;
    Ok(())
}

#[test]
fn parity_over_shortened_over_parity() -> Result<(), Fail> {
    let pile = Parity::over(Shortened::over(Parity::over(Cyclic::of(Name::G23)), 3));
    shapes(&pile, 22, 9, 3)?;
    encodes(&pile, 0x155, 0x2aacf4)?;
    corrects(&pile, 0xaacf7, 0x155, 0x200003)?;
    corrects(&pile, 0x3aa4f5, 0x155, 0x100801)?;
    refuses(&pile, 0x2aacfb, Cause::BeyondReach)?;
    refuses(&pile, 0x1aa4f5, Cause::BeyondReach)?;
    refuses(&pile, 1 << 22, Cause::WordTooLong)?;
    encode_refuses(&pile, 1 << 9, Cause::MessageTooLong)?;
    Ok(())
}

#[test]
fn shortened_over_parity_over_shortened() -> Result<(), Fail> {
    let pile = Shortened::over(Parity::over(Shortened::over(Cyclic::of(Name::G23), 2)), 4);
    shapes(&pile, 18, 6, 3)?;
    encodes(&pile, 0x2a, 0x2ad06)?;
    corrects(&pile, 0x3ad05, 0x2a, 0x10003)?;
    corrects(&pile, 0x22507, 0x2a, 0x8801)?;
    refuses(&pile, 0x2ad09, Cause::BeyondReach)?;
    refuses(&pile, 1 << 18, Cause::WordTooLong)?;
    Ok(())
}

#[test]
fn shortened_to_nothing() -> Result<(), Fail> {
    let code = Shortened::over(Cyclic::of(Name::G23), u32::MAX);
    shapes(&code, 11, 0, 3)?;
    encodes(&code, 0, 0)?;
    encode_refuses(&code, 1, Cause::MessageTooLong)?;
    corrects(&code, 7, 0, 7)?;
    refuses(&code, 0xf, Cause::BeyondReach)?;
    refuses(&code, 1 << 11, Cause::WordTooLong)?;
    Ok(())
}

/// A pile that passes 42 bits is out of service, and so is what is laid over it.
#[test]
fn out_of_service(rt: HostRuntime) -> Result<(), Fail> {
    let once = Parity::over(Cyclic::of(Name::Q41));
    shapes(&once, 42, 21, 4)?;
    let twice = Parity::over(once);
    assert_eq!(rt; twice.shape(), Err(Fault::new(Cause::OutOfService)));
    encode_refuses(&twice, 0, Cause::OutOfService)?;
    encode_refuses(&twice, u64::MAX, Cause::OutOfService)?;
    refuses(&twice, u64::MAX, Cause::OutOfService)?;
    let pile = Shortened::over(twice, 10);
    assert_eq!(rt; pile.shape(), Err(Fault::new(Cause::OutOfService)));
    refuses(&pile, 0, Cause::OutOfService)?;
    Ok(())
}
