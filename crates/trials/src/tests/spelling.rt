//! Tables back: from the words of a report to the bytes, and each refusal.
use super::*;
use codes::interface::Code;
use link::receiver::Receiver;
use link::sealed::Sealed;
use runs::transport::carry;
use tables::sender::send;

/// A sealed report over G23 of these words.
// Not `replay` of `runs`: that one takes calls, and here they are words; the loops over words stop at a refusal, and this one goes on.
fn heard(words: &[u64]) -> Sealed<Cyclic> {
    let mut receiver = Receiver::new(Cyclic::of(Name::G23));
    for word in words {
        let _ = receiver.offer(*word);
    }
    receiver.seal()
}

/// Spelling is refused, and leaves the buffer as it was.
fn refuses<C: Code + Drop>(sealed: &Sealed<C>, cause: Cause, place: usize) -> Result<(), Fail> {
    let mut buffer = [7; 2];
    check_eq(sealed.spell(&mut buffer), Err(at(cause, place)))?;
    check_eq(buffer, [7, 7])
}

#[test]
fn there_and_back(rt: HostRuntime) -> Result<(), Fail> {
    let mut words = [0; 4];
    assert_eq!(rt;
        send(&Cyclic::of(Name::G23), &[1, 2, 0xff], &mut words),
        Ok(4)
    );
    let sealed = heard(&words);
    let mut buffer = [7; 5];
    assert_eq!(rt; sealed.spell(&mut buffer), Ok(3));
    assert_eq!(rt; buffer, [1, 2, 0xff, 7, 7]);
    refuses(&sealed, Cause::TooShort, 0)?;
    Ok(())
}

/// No place; a bit past the end of the stream, the lowest and the highest one; and a place too many.
#[test]
fn no_table(rt: HostRuntime) -> Result<(), Fail> {
    let code = Cyclic::of(Name::G23);
    refuses(&heard(&[]), Cause::NotATable, 0)?;
    refuses(&heard(&[0, code.encode(0x10)?]), Cause::NotATable, 0)?;
    refuses(&heard(&[0, code.encode(0x800)?]), Cause::NotATable, 0)?;
    refuses(&heard(&[0xae3, 0x2868a, 0]), Cause::NotATable, 0)?;
    Ok(())
}

/// A gap, no message bits, and a code that is out of service.
#[test]
fn no_messages() -> Result<(), Fail> {
    let mut receiver = Receiver::new(Cyclic::of(Name::Q31));
    let _ = receiver.offer(0);
    let _ = receiver.offer(0xf);
    refuses(&receiver.seal(), Cause::GapInReport, 1)?;
    let nothing = Shortened::over(Cyclic::of(Name::G23), 12);
    refuses(&Receiver::new(nothing).seal(), Cause::NoMessageBits, 0)?;
    let twice = Parity::over(Parity::over(Cyclic::of(Name::Q41)));
    refuses(&Receiver::new(twice).seal(), Cause::OutOfService, 0)?;
    Ok(())
}

/// Four bits are turned over in each word.
#[test]
fn carried(rt: HostRuntime) {
    let patterns = [0xf, 1 << 40 | 0x7 << 20, 0x1111];
    let mut buffer = [7; 6];
    assert_eq!(rt;
        carry(
            Cyclic::of(Name::Q41),
            &[8, 0x80, 0xff, 0],
            &patterns,
            &mut buffer
        ),
        Ok(4)
    );
    assert_eq!(rt; buffer, [8, 0x80, 0xff, 0, 7, 7]);
}
