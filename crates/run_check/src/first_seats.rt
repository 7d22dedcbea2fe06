// The seats of a run's queues at its start.
ghost use Rattle.std.specs.Prelude.{◌≡◌, ◌<◌, ◌≤◌, All, IfOk, length};
ghost use Rattle.run_transcript.specs.Served.{front_len};
ghost use Rattle.check_records.specs.Cursors.{IsReadFile, capsules_of};
ghost use Rattle.check_records.specs.Seats.{AreFresh};
ghost use Rattle.run_check.specs.Pieces.{AreFirstSeats};

use check_records::{Cursor, Seat, Stage};
use run_transcript::CapsuleFile;
use sqe_cqe::FABRICS;
use std::alloc::{AllocError, Global};

// How many fabrics commands a file begins with.
fn front_len(file: &CapsuleFile) -> usize
    ensures value { result ≡ front_len (capsules_of file.now) }
    ensures within { result ≤ length file.now.capsules.items }
{
    for (number, capsule) in file.capsules.iter().enumerate() {
        if capsule.sqe.opcode != FABRICS {
            return number;
        }
    }
    file.capsules.len()
}

/// The seats of the queues of these files, where nothing was made again yet.
pub(crate) fn first_seats(alloc: Global, files: &[CapsuleFile]) -> Result<Vec<Seat>, AllocError>
    requires files { All IsReadFile files.now }
    requires few { length files.now < 65536 }
    ensures first { IfOk result (λ v. AreFirstSeats files.now v.items) }
    ensures fresh { IfOk result (λ v. AreFresh v.items) }
    ensures all { IfOk result (λ v. length v.items ≡ length files.now) }
{
    let mut seats = Vec::new(alloc);
    let mut earlier = 0;
    for file in files {
        let front = front_len(file);
        seats.push(Seat {
            next: 0,
            cursor: Cursor {
                taken: 0,
                stage: Stage::Ready,
            },
            front,
            earlier,
        })?;
        earlier += front;
    }
    Ok(seats)
}
