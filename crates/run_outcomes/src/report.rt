// The one line that is put where a run did not end well. No memory is taken for it.
ghost use Rattle.std.specs.Prelude.{◌++◌, ◌∷◌, [], codes};
ghost use Rattle.std.specs.Fmt.{decimal};
ghost use Rattle.run_outside.specs.Outside.{SinkTakes, SinkCause};
ghost use Rattle.run_outcomes.specs.Outsides.{Said, sink_view};
ghost use Rattle.run_outcomes.specs.Texts.{config_line, limit_line, line_of, malformed_line, usage_line};

use crate::faults::{At, Fault};
use crate::numbers::SINK;
use configfs_tree::Errno;
use itoa::Buffer;
use plan_files::{Sink, SinkFault, What};

// Puts two pieces, one after the other.
fn put_pair<K: Sink>(first: &[u8], second: &[u8], out: &mut K) -> Result<(), SinkFault>
    ensures content { SinkTakes (K.taken out.old) (K.taken out.new) (first.now ++ second.now)
        result }
    ensures cause { SinkCause (K.faults out.old) (K.faults out.new) result }
{
    match out.put(first) {
        Ok(()) => out.put(second),
        Err(fault) => Err(fault),
    }
}

// Puts a piece, a number and the end of the line.
fn put_number<K: Sink>(before: &[u8], number: u64, out: &mut K) -> Result<(), SinkFault>
    ensures content { SinkTakes (K.taken out.old) (K.taken out.new) (before.now
        ++ (decimal number ++ 10 ∷ [])) result }
    ensures cause { SinkCause (K.faults out.old) (K.faults out.new) result }
{
    let mut digits = Buffer::new();
    let number = digits.format(number).as_bytes();
    match out.put(before) {
        Ok(()) => put_pair(number, b"\n", out),
        Err(fault) => Err(fault),
    }
}

/// Puts the line of a usage fault.
pub fn put_usage<K: Sink>(out: &mut K) -> Result<(), SinkFault>
    ensures content { SinkTakes (K.taken out.old) (K.taken out.new) usage_line result }
    ensures cause { SinkCause (K.faults out.old) (K.faults out.new) result }
{
    out.put(b"usage: nvmetd run PLAN | check PLAN | show PLAN | gen N NAME\n")
}

// Puts a word, the name of a file and the end of the line.
fn put_name<K: Sink>(before: &[u8], file: &[u8], out: &mut K) -> Result<(), SinkFault>
    ensures content { SinkTakes (K.taken out.old) (K.taken out.new) ((before.now ++ file.now) ++ 10
        ∷ []) result }
    ensures cause { SinkCause (K.faults out.old) (K.faults out.new) result }
{
    match put_pair(before, file, out) {
        Ok(()) => out.put(b"\n"),
        Err(fault) => Err(fault),
    }
}

// Puts a word, the name of a file, another word and a number.
fn put_place<K: Sink>(
    before: &[u8],
    file: &[u8],
    word: &[u8],
    number: u64,
    out: &mut K,
) -> Result<(), SinkFault>
    ensures content { SinkTakes (K.taken out.old) (K.taken out.new) ((before.now ++ file.now)
        ++ (word.now ++ (decimal number ++ 10 ∷ []))) result }
    ensures cause { SinkCause (K.faults out.old) (K.faults out.new) result }
{
    match put_pair(before, file, out) {
        Ok(()) => put_number(word, number, out),
        Err(fault) => Err(fault),
    }
}

// Puts a word, the name of a file and what ends the line.
fn put_word<K: Sink>(before: &[u8], file: &[u8], after: &[u8], out: &mut K) -> Result<(), SinkFault>
    ensures content { SinkTakes (K.taken out.old) (K.taken out.new) ((before.now ++ file.now)
        ++ after.now) result }
    ensures cause { SinkCause (K.faults out.old) (K.faults out.new) result }
{
    match put_pair(before, file, out) {
        Ok(()) => out.put(after),
        Err(fault) => Err(fault),
    }
}

// Puts the line of a member of another kind, by its JSON pointer.
fn put_member<K: Sink>(file: &[u8], pointer: &[u8], out: &mut K) -> Result<(), SinkFault>
    ensures content { SinkTakes (K.taken out.old) (K.taken out.new) ((codes "malformed "
        ++ file.now) ++ ((codes " member " ++ pointer.now) ++ codes "\n")) result }
    ensures cause { SinkCause (K.faults out.old) (K.faults out.new) result }
{
    match put_pair(b"malformed ", file, out) {
        Ok(()) => put_word(b" member ", pointer, b"\n", out),
        Err(fault) => Err(fault),
    }
}

// Puts the line of an edit of the configuration that was refused.
fn put_config<K: Sink>(edit: u64, errno: Errno, out: &mut K) -> Result<(), SinkFault>
    ensures content { SinkTakes (K.taken out.old) (K.taken out.new) (config_line edit errno)
        result }
    ensures cause { SinkCause (K.faults out.old) (K.faults out.new) result }
{
    let mut digits = Buffer::new();
    let number = digits.format(edit).as_bytes();
    match put_pair(b"config edit ", number, out) {
        Ok(()) => put_word(b" ", errno.name().as_bytes(), b"\n", out),
        Err(fault) => Err(fault),
    }
}

// Puts the line of a malformed file.
#[tactic(auto, unfolding(crate::specs::Texts::malformed_line))]
fn put_malformed<K: Sink>(file: &[u8], at: &At, out: &mut K) -> Result<(), SinkFault>
    ensures content { SinkTakes (K.taken out.old) (K.taken out.new) (malformed_line file.now at.now)
        result }
    ensures cause { SinkCause (K.faults out.old) (K.faults out.new) result }
{
    match at {
        At::Line(line) => put_place(b"malformed ", file, b" line ", u64::from(*line), out),
        At::Offset(offset) => put_place(b"malformed ", file, b" offset ", *offset, out),
        At::Json => put_word(b"malformed ", file, b" json\n", out),
        At::Shape(pointer) => put_member(file, pointer.as_bytes(), out),
    }
}

// Puts the line of a passed limit.
fn put_limit<K: Sink>(file: &[u8], what: What, count: u64, out: &mut K) -> Result<(), SinkFault>
    ensures content { SinkTakes (K.taken out.old) (K.taken out.new) (limit_line file.now what count)
        result }
    ensures cause { SinkCause (K.faults out.old) (K.faults out.new) result }
{
    match put_pair(b"limit ", file, out) {
        Ok(()) => put_place(b" ", what.word().as_bytes(), b" ", count, out),
        Err(fault) => Err(fault),
    }
}

/// Puts the line of a fault in the file of this name. Nothing is put where the sink itself failed.
#[tactic(auto, unfolding(crate::specs::Texts::line_of))]
pub fn put_line<K: Sink>(file: &[u8], fault: &Fault, out: &mut K) -> Result<(), SinkFault>
    ensures content { SinkTakes (K.taken out.old) (K.taken out.new) (line_of file.now fault.now)
        result }
    ensures cause { SinkCause (K.faults out.old) (K.faults out.new) result }
{
    match fault {
        Fault::Malformed { file: _, at } => put_malformed(file, at, out),
        Fault::ReadFault { file: _ } => put_name(b"cannot read ", file, out),
        Fault::WriteFault { file: no } => {
            if no.0 == SINK.0 {
                Ok(())
            } else {
                put_name(b"cannot write ", file, out)
            }
        }
        Fault::Memory => out.put(b"out of memory\n"),
        Fault::Limit {
            file: _,
            what,
            count,
        } => put_limit(file, *what, *count, out),
        Fault::ConfigRefused { edit, errno } => put_config(*edit, *errno, out),
    }
}

/// Puts the line of a fault in the file of this name, or a front of it where the sink fails: the
/// fault stays what it was.
pub fn report_fault<K: Sink>(file: &[u8], fault: &Fault, out: &mut K)
    ensures { Said (sink_view (K.taken out.old) (K.faults out.old))
        (sink_view (K.taken out.new) (K.faults out.new)) (line_of file.now fault.now) }
{
    let _ = put_line(file, fault, out);
}
