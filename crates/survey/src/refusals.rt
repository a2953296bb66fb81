//! Three refusals.
use crate::Survey;
use anyhow::bail;
use codes::fault::{Cause, Fault};
use codes::interface::Code;
use cyclic::Cyclic;
use cyclic::name::Name;
use layers::parity::Parity;
use link::receiver::Receiver;

impl<R: Print> Survey<'_, R> {
    /// A call that has to be refused for this cause.
    fn refused<T: Drop>(
        &mut self,
        what: &str,
        answer: Result<T, Fault>,
        cause: Cause,
    ) -> anyhow::Result<()> {
        let expected = cause.number();
        let answered = answer.err().map(|fault| fault.cause);
        if answered != Some(cause) {
            let number = answered.map_or(0, Cause::number);
            println!(self.rt; "{what}: answered {number}, not {expected}")?;
            bail!("a wrong refusal");
        }
        println!(self.rt; "{what}: refused with {expected}")?;
        self.count(1);
        Ok(())
    }

    /// A message that is too long, a second parity layer over the longest code, and a report of no places.
    pub fn refusals(&mut self) -> anyhow::Result<()> {
        let message = Cyclic::of(Name::G23).encode(0x1000);
        self.refused("G23, message 1000", message, Cause::MessageTooLong)?;
        let shape = Parity::over(Parity::over(Cyclic::of(Name::Q41))).shape();
        self.refused("Q41 with parity twice, shape", shape, Cause::OutOfService)?;
        let mut buffer = [0; 8];
        let spelled = Receiver::new(Cyclic::of(Name::Q41))
            .seal()
            .spell(&mut buffer);
        self.refused("Q41, a report of no places", spelled, Cause::NotATable)
    }
}
