//! Correcting a list.
ghost use Rattle.std.specs.Prelude.{◌≡◌, Ok, Err};
ghost use Rattle.listings.specs.Choice.{choice_means};
ghost use Rattle.capi.specs.declared.boundary.Refusal.TheVariants.{UnknownCode};
ghost use Rattle.capi.specs.Boundary.{OverCode};
ghost use Rattle.capi.specs.Lists.{ListedTo};
ghost use Rattle.capi.specs.Steps.{Over, slot_as_c};

use crate::boundary::{Refusal, answer, pick};
use codes::slots::Slot;
use listings::choice::Choice;

/// A slot as C sees it: the verdict is 0 or the number of the refusal.
#[repr(C)]
#[derive(Clone, Copy)]
pub struct WzSlot {
    pub word: u64,
    pub verdict: u64,
    pub message: u64,
    pub pattern: u64,
}

impl From<Slot> for WzSlot {
    ghost from_gives = { λ slot seen. seen ≡ slot_as_c slot };

    fn from(slot: Slot) -> WzSlot {
        WzSlot {
            word: slot.word,
            verdict: u64::from(slot.number()),
            message: slot.message,
            pattern: slot.pattern,
        }
    }
}

/// Corrects the word of each slot.
// `correct_list` of the library goes over its own slots, and these have the layout of C.
fn fill_all(code: &Choice, slots: &mut [WzSlot])
    ensures { ListedTo (choice_means code.now) slots.old slots.new }
{
    for slot in slots.iter_mut() {
        *slot = Slot::new(slot.word).filled(code).into();
    }
}

/// Corrects a list in place, by the code of a number.
// What stays where no code has the number is a clause of its own here, in sending and in receiving: each is lent something else.
fn correct_list(code: u32, slots: &mut [WzSlot]) -> Result<(), Refusal>
    ensures listed { Over (λ u. u) code (λ m r. (r ≡ Ok tt) × ListedTo m slots.old slots.new) result }
    ensures kept { result ≡ Err UnknownCode → slots.new ≡ slots.old }
{
    fill_all(&pick(code)?, slots);
    Ok(())
}

/// Corrects a list in place. It answers 0 whatever the words are: each slot has a verdict of its own.
#[unsafe(no_mangle)]
pub extern "C" fn wz_correct_list(code: u32, slots: &mut [WzSlot]) -> u32
    ensures { OverCode code (λ m. (result ≡ 0) × ListedTo m slots.old slots.new) slots.old result slots.new }
{
    answer(correct_list(code, slots), &mut ())
}
