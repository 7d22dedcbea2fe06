ghost use Rattle.std.specs.Prelude.{◌≡◌, OnOk, IfErr};
ghost use Rattle.run_outcomes.specs.Outsides.{Took, sink_view, FailedPut};
ghost use Rattle.run_outcomes.specs.declared.faults.Fault.{Fault};
ghost use Rattle.run_outcomes.specs.declared.faults.Fault.TheVariants as fault;
ghost use Rattle.run_outcomes.specs.declared.numbers.TheConstants.{SINK};

use crate::faults::Fault;
use crate::numbers::SINK;
use plan_files::Sink;

/// Puts the text of a run that ended well.
pub fn put_text<K: Sink>(text: &[u8], out: &mut K) -> Result<(), Fault>
    ensures took { OnOk result (Took (K.taken out.old) (K.taken out.new) text.now) }
    ensures refused { IfErr result (λ f. (f ≡ Fault.WriteFault SINK) × FailedPut
        (sink_view (K.taken out.old) (K.faults out.old))
        (sink_view (K.taken out.new) (K.faults out.new)) text.now) }
{
    match out.put(text) {
        Ok(()) => Ok(()),
        Err(_) => Err(Fault::WriteFault { file: SINK }),
    }
}
