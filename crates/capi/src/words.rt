//! Encoding and correcting.
ghost use Rattle.std.specs.Prelude.{◌≡◌};
ghost use Rattle.codes.specs.Interface.{Encoded, Corrected};
ghost use Rattle.capi.specs.Boundary.{OverCode};
ghost use Rattle.capi.specs.Words.{EncodedTo, CorrectedTo, as_c};
ghost use Rattle.capi.specs.Steps.{Over};

use crate::boundary::{Refusal, answer, pick};
use codes::interface::{Code, Correction};

/// A correction as C sees it.
#[repr(C)]
#[derive(Clone, Copy)]
pub struct WzCorrection {
    pub codeword: u64,
    pub message: u64,
    pub pattern: u64,
}

impl From<Correction> for WzCorrection {
    ghost from_gives = { λ found seen. seen ≡ as_c found };

    fn from(found: Correction) -> WzCorrection {
        WzCorrection {
            codeword: found.codeword,
            message: found.message,
            pattern: found.pattern,
        }
    }
}

/// The codeword of a message, by the code of a number.
fn encode(code: u32, message: u64) -> Result<u64, Refusal>
    ensures { Over (λ v. v) code (λ m. Encoded m message) result }
{
    Ok(pick(code)?.encode(message)?)
}

/// The codeword of a message.
#[unsafe(no_mangle)]
pub extern "C" fn wz_encode(code: u32, message: u64, codeword: &mut u64) -> u32
    ensures { OverCode code (λ m. EncodedTo m message codeword.old result codeword.new) codeword.old result codeword.new }
{
    answer(encode(code, message), codeword)
}

/// The correction of a word, by the code of a number.
fn correct(code: u32, word: u64) -> Result<WzCorrection, Refusal>
    ensures { Over as_c code (λ m. Corrected m word) result }
{
    Ok(pick(code)?.correct(word)?.into())
}

/// The codeword within reach of a word, its message and the pattern.
#[unsafe(no_mangle)]
pub extern "C" fn wz_correct(code: u32, word: u64, out: &mut WzCorrection) -> u32
    ensures { OverCode code (λ m. CorrectedTo m word out.old result out.new) out.old result out.new }
{
    answer(correct(code, word), out)
}
