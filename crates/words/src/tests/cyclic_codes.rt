//! The three codes.
use super::*;
use cyclic::Cyclic;
use cyclic::name::Name;

/// The largest message and the largest word are taken, and what comes after them is refused.
fn edges(code: &Cyclic, last_message: u64, last_word: u64) -> Result<(), Fail> {
    encodes(code, last_message, last_word)?;
    encode_refuses(code, last_message.wrapping_add(1), Cause::MessageTooLong)?;
    encode_refuses(code, u64::MAX, Cause::MessageTooLong)?;
    corrects(code, last_word, last_message, 0)?;
    refuses(code, last_word.wrapping_add(1), Cause::WordTooLong)?;
    refuses(code, u64::MAX, Cause::WordTooLong)?;
    Ok(())
}

#[test]
fn g23_words() -> Result<(), Fail> {
    let code = Cyclic::of(Name::G23);
    shapes(&code, 23, 12, 3)?;
    encodes(&code, 1, 0xae3)?;
    corrects(&code, 0xf, 0x402, 0x201200)?;
    edges(&code, 0xfff, 0x7fffff)?;
    Ok(())
}

#[test]
fn q31_words() -> Result<(), Fail> {
    let code = Cyclic::of(Name::Q31);
    shapes(&code, 31, 16, 3)?;
    refuses(&code, 0xf, Cause::BeyondReach)?;
    corrects(&code, 0x40006308, 1, 0x40008001)?;
    edges(&code, 0xffff, 0x7fffffff)?;
    Ok(())
}

#[test]
fn q41_words() -> Result<(), Fail> {
    let code = Cyclic::of(Name::Q41);
    shapes(&code, 41, 21, 4)?;
    corrects(&code, 0x1b4e54, 1, 0xf)?;
    corrects(&code, 0x700001, 0, 0x700001)?;
    edges(&code, 0x1fffff, 0x1ffffffffff)?;
    Ok(())
}

/// Four flips about the lowest message bit; five that are beyond reach; and five that look like four.
#[test]
fn q41_flips() -> Result<(), Fail> {
    let code = Cyclic::of(Name::Q41);
    let four = 1 << 40 | 1 << 21 | 1 << 20 | 1 << 19;
    corrects(&code, four, 0, four)?;
    refuses(
        &code,
        1 << 37 | 1 << 20 | 1 << 11 | 1 << 3 | 1,
        Cause::BeyondReach,
    )?;
    corrects(&code, 0x1f, 0x112, 0x11220000)?;
    Ok(())
}

#[test]
fn codewords_by_remainder(rt: HostRuntime) {
    let code = Cyclic::of(Name::G23);
    assert!(rt; code.is_codeword(0xae3));
    assert!(rt; !code.is_codeword(0xae2));
    assert!(rt; !code.is_codeword(0xae3 << 12));
}
