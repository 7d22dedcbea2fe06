// The text of a run's journal.
ghost use Rattle.std.specs.Prelude.{◌≡◌, ◌≤◌, ◌*◌, ◌^◌, IfOk};
ghost use Rattle.std.specs.List.{sum_by};
ghost use Rattle.journal_text.specs.Rooms.{journal_room, line_room};
ghost use Rattle.journal_text.specs.Text.{journal_text};

use journal_text::{DONE_BYTES, EDIT_BYTES, HEAD_BYTES, JournalLine, put_journal};
use mem_bdev::Buffer;
use std::alloc::{AllocError, Global};

fn room_of_line(line: &JournalLine) -> usize
    ensures value { result ≡ line_room line.now }
    ensures small { result ≤ 37 }
{
    match line {
        JournalLine::Edit { .. } => EDIT_BYTES,
        JournalLine::Done { .. } => DONE_BYTES,
    }
}

// The room that a journal of these lines needs. It doesn't pass 128 bits, since no list has 2^64
// lines.
fn room_of_journal(lines: &[JournalLine]) -> u128
    ensures { result ≡ journal_room lines.now }
{
    let mut room: u128 = 0;
    for line in lines {
        room += room_of_line(line) as u128;
    }
    HEAD_BYTES as u128 + room
}

/// The journal of a run with so many places. A journal that is longer than memory can be is one for
/// which there is no memory.
pub fn journal_of(alloc: Global, places: u32, lines: &[JournalLine]) -> Result<Buffer, AllocError>
    ensures { IfOk result (λ b. b.bytes ≡ journal_text places lines.now) }
{
    let Ok(room) = usize::try_from(room_of_journal(lines)) else {
        return Err(AllocError);
    };
    let mut text = Buffer::with_room(alloc, room)?;
    put_journal(places, lines, &mut text);
    Ok(text)
}
