// Contents read and written piece by piece, over any reader and writer.
ghost use Rattle.std.specs.Prelude.{◌≡◌, ◌≤◌, ◌+◌, length, take, drop, IfOk, IfSome};
ghost use Rattle.std.specs.Io.KnownBytes.{ReadConsumes};
ghost use Rattle.run_outside.specs.Outside.{ReadGives};
ghost use Rattle.run_outside.specs.Pieces.{PassedOn};

use crate::outside::FileError;
use std::io;
use std::io::{Read, Write};

// The most bytes that one read asks its source for.
const PIECE: usize = 65_536;

// Reads at most `room` bytes into their place after the first `at` bytes, and says how many came.
// None where there is no memory. What a short read leaves of the room serves the next one.
fn read_piece<S: Read>(
    source: &mut S,
    at: usize,
    room: usize,
    into: &mut Vec<u8>,
) -> Option<io::Result<usize>>
    requires at { at ≤ length into.old.items }
    requires room { length into.old.items ≤ at + room }
    requires small { room ≤ 65536 }
    ensures front { take at into.new.items ≡ take at into.old.items }
    ensures room { (at ≤ length into.new.items) × (length into.new.items ≤ at + room) }
    ensures full { IfSome result (λ r. length into.new.items ≡ at + room) }
    ensures count { IfSome result (λ r. IfOk r (λ n. at + n ≤ length into.new.items)) }
    ensures bytes { IfSome result (λ r. ReadConsumes (S.remaining source.old)
        (S.remaining source.new)
        r (drop at into.new.items)) }
{
    if into.resize(at + room, 0).is_err() {
        return None;
    }
    Some(source.read(&mut into[at..]))
}

/// Appends what a source has left, at most `limit` bytes.
///
/// `TooLong` appends the first `limit + 1` bytes of more. `Failed` answers any error of the source,
/// an interrupted read too, and `Memory` want of memory; both leave `into` as before.
pub fn read_content<S: Read>(
    source: &mut S,
    limit: usize,
    into: &mut Vec<u8>,
) -> Result<(), FileError>
    ensures { ReadGives (S.remaining source.old) limit into.old.items into.new.items result }
{
    let start = into.len();
    let mut filled = start;
    while filled - start <= limit {
        let room = (limit - (filled - start)).min(PIECE - 1) + 1;
        match read_piece(source, filled, room, into) {
            None => {
                into.truncate(start);
                return Err(FileError::Memory);
            }
            Some(Err(_)) => {
                into.truncate(start);
                return Err(FileError::Failed);
            }
            Some(Ok(0)) => {
                into.truncate(filled);
                return Ok(());
            }
            Some(Ok(count)) => filled += count,
        }
    }
    Err(FileError::TooLong)
}

/// Passes all of the bytes on to a writer, piece by piece, and says whether that went well.
///
/// Any error of the writer is a fault, an interrupted write too, and so is a write that takes
/// nothing, since it would be tried for ever. At a fault the writer has taken a front of the bytes
/// that lacks something.
pub fn write_pieces<W: Write>(to: &mut W, bytes: &[u8]) -> bool
    ensures { PassedOn (W.contents to.old) (W.contents to.new) bytes.now result }
{
    let mut done = 0;
    while done < bytes.len() {
        match to.write(&bytes[done..]) {
            Err(_) | Ok(0) => return false,
            Ok(count) => done += count,
        }
    }
    true
}
