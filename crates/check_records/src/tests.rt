// What differs in a record, row by row.
ghost use Rattle.std.specs.Prelude.{◌≡◌};

use crate::*;
use run_records::{Answer, Head, Kind};
use sqe_cqe::Cqe;
use std::process::Abort;
use std::test::Fail;
use tree_target::Reply;

fn cqe(cid: u16, status: u16) -> Cqe {
    Cqe {
        result: 0,
        sq_head: 0,
        sq_id: 1,
        cid,
        status,
    }
}

// An execute of a Read that was answered, with two bytes of data.
fn head(cid: u16, status: u16) -> Head
    ensures { result.answer ≡ Answer.Answered }
{
    Head {
        place: 3,
        kind: Kind::Execute,
        answer: Answer::Answered,
        number: 1,
        len: 2,
        cqe: cqe(cid, status),
    }
}

fn differs(rt: &impl Abort, record: (u16, u16, &[u8]), reply: &Reply, field: Option<Field>) {
    let (cid, status, data) = record;
    assert_eq!(rt; difference(&head(cid, status), data, reply, b"ab"), field);
}

#[test]
fn the_first_field_that_differs_is_named(rt: HostRuntime) -> Result<(), Fail> {
    let read = Reply::Answered(cqe(2, 0));
    differs(&rt, (2, 0, b"ab"), &read, None);
    differs(&rt, (2, 0, b"ac"), &read, Some(Field::Bytes));
    differs(&rt, (2, 0, b"a"), &read, Some(Field::Bytes));
    differs(&rt, (3, 0, b"ab"), &read, Some(Field::Completion));
    differs(&rt, (2, 0x8100, b"ac"), &read, Some(Field::Completion));
    differs(&rt, (2, 0, b"ac"), &Reply::Held, Some(Field::Answer));
    differs(&rt, (2, 0, b"ab"), &Reply::Waiting, Some(Field::Answer));
    Ok(())
}
