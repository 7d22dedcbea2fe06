//! Admissions of I/O commands over two looks.
ghost use Rattle.std.specs.Prelude.{◌≡◌};

use crate::difference::Difference;
use io_commands::admit_io;
use sqe_cqe::{Bound, Look, Sqe, read_sqe};

// Flush, Write, Read and Write Zeroes, and an opcode of no command.
const OPCODES: [u8; 5] = [0x00, 0x01, 0x02, 0x08, 0x7e];

// The NSIDs that commands name.
const NSIDS: u32 = 2_050;

/// A command of so many bytes of data on the first blocks of a namespace: of as many as they fill
/// at 512 bytes each.
pub fn command(opcode: u8, nsid: u32, bytes: u32) -> Sqe {
    let mut e = read_sqe(&[0; 64]);
    e.opcode = opcode;
    e.flags = 0x40;
    e.nsid = nsid;
    e.sgl_len = bytes;
    e.cdw12 = (bytes / 512).saturating_sub(1);
    e
}

/// Whether a command is admitted alike over both looks: the same refusal, or the same job.
pub fn same_admission<A: Look, B: Look>(bound: &Bound, e: &Sqe, a: &mut A, b: &mut B) -> bool
    ensures a { A.behind a.new ≡ A.behind a.old }
    ensures b { B.behind b.new ≡ B.behind b.old }
{
    let one = admit_io(bound, e, a);
    let other = admit_io(bound, e, b);
    one == other
}

// Commands of every opcode for an NSID.
fn same_commands<A: Look, B: Look>(
    bound: &Bound,
    nsid: u32,
    a: &mut A,
    b: &mut B,
) -> Result<(), Difference>
    ensures a { A.behind a.new ≡ A.behind a.old }
    ensures b { B.behind b.new ≡ B.behind b.old }
{
    for opcode in OPCODES {
        let bytes = if opcode == 0x01 || opcode == 0x02 {
            4_096
        } else {
            0
        };
        let e = command(opcode, nsid, bytes);
        if !same_admission(bound, &e, a, b) {
            return Err(Difference::Admission(opcode, nsid));
        }
    }
    Ok(())
}

/// Commands of every opcode, on the first 4,096 bytes of each NSID from 0 to 2,049, are admitted
/// alike over both looks for a queue that is connected so.
pub fn same_admissions<A: Look, B: Look>(
    bound: &Bound,
    a: &mut A,
    b: &mut B,
) -> Result<(), Difference>
    ensures a { A.behind a.new ≡ A.behind a.old }
    ensures b { B.behind b.new ≡ B.behind b.old }
{
    for nsid in 0..NSIDS {
        same_commands(bound, nsid, a, b)?;
    }
    Ok(())
}
