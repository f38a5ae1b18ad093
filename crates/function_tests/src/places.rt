// Faults with their places.
ghost use Rattle.std.specs.Prelude.{◌≡◌};
ghost use Rattle.hir_faults.specs.Faults.{because};
ghost use Rattle.function_tests.specs.Steps.{at_step, nowhere, too_little_memory};

use crate::tested::Tested;
use hir_faults::{Envelope, Fault, FunctionFault, PassFault, Place, Reason};
use react_compiler_hir::Source;

impl<S: Source> Tested<'_, S> {
    fn because(&self, reason: Reason) -> FunctionFault
        ensures { result ≡ because self.now.kind reason }
    {
        FunctionFault {
            source: self.source.source_kind(),
            reason,
        }
    }

    pub fn fault_at(&self, place: Place, reason: Reason) -> Envelope<Fault>
        ensures { result ≡ at_step place.block place.step (because self.now.kind reason) }
    {
        Envelope::new(Some(place), self.because(reason)).into()
    }

    pub fn fault_nowhere(&self, reason: Reason) -> Envelope<Fault>
        ensures { result ≡ nowhere (because self.now.kind reason) }
    {
        Envelope::new(None, self.because(reason)).into()
    }
}

pub fn memory_fault() -> Envelope<Fault>
    ensures { result ≡ too_little_memory }
{
    Envelope::new(None, PassFault::TooLittleMemory).into()
}
