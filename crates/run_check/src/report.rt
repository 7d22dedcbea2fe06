// The line of a verdict. No memory is taken for it.
ghost use Rattle.std.specs.Prelude.{◌≡◌, ◌++◌};
ghost use Rattle.std.specs.Fmt.{decimal};
ghost use Rattle.run_outside.specs.Outside.{SinkTakes, SinkCause};
ghost use Rattle.run_check.specs.Texts.{field_end, legal_line, not_legal_line};

use itoa::Buffer;
use plan_files::{Sink, SinkFault};
use run_verdicts::Field;

// Puts two pieces, one after the other.
fn put_pair<K: Sink>(first: &[u8], second: &[u8], out: &mut K) -> Result<(), SinkFault>
    ensures content { SinkTakes (K.taken out.old) (K.taken out.new) (first.now ++ second.now)
        result }
    ensures cause { SinkCause (K.faults out.old) (K.faults out.new) result }
{
    match out.put(first) {
        Ok(()) => out.put(second),
        Err(fault) => Err(fault),
    }
}

// Puts a number between two pieces.
fn put_number<K: Sink>(
    before: &[u8],
    number: u32,
    after: &[u8],
    out: &mut K,
) -> Result<(), SinkFault>
    ensures content { SinkTakes (K.taken out.old) (K.taken out.new) (before.now
        ++ (decimal number ++ after.now)) result }
    ensures cause { SinkCause (K.faults out.old) (K.faults out.new) result }
{
    let mut digits = Buffer::new();
    let number = digits.format(number).as_bytes();
    match out.put(before) {
        Ok(()) => put_pair(number, after, out),
        Err(fault) => Err(fault),
    }
}

// A field's word, which ends the line.
#[tactic(auto, unfolding(crate::specs::Texts::field_end))]
fn field_end(field: Field) -> &'static [u8]
    ensures { result.now ≡ field_end field }
{
    match field {
        Field::Place => b" place\n",
        Field::Order => b" order\n",
        Field::Answer => b" answer\n",
        Field::Completion => b" completion\n",
        Field::Bytes => b" bytes\n",
        Field::Errno => b" errno\n",
        Field::Drain => b" drain\n",
    }
}

/// Puts the line of a run that is legal, with its number of places.
pub(crate) fn put_legal<K: Sink>(places: u32, out: &mut K) -> Result<(), SinkFault>
    ensures content { SinkTakes (K.taken out.old) (K.taken out.new) (legal_line places) result }
    ensures cause { SinkCause (K.faults out.old) (K.faults out.new) result }
{
    put_number(b"legal ", places, b"\n", out)
}

/// Puts the line of a run's first fault.
pub(crate) fn put_not_legal<K: Sink>(place: u32, field: Field, out: &mut K) -> Result<(), SinkFault>
    ensures content { SinkTakes (K.taken out.old) (K.taken out.new) (not_legal_line place field)
        result }
    ensures cause { SinkCause (K.faults out.old) (K.faults out.new) result }
{
    put_number(b"not legal place ", place, field_end(field), out)
}
