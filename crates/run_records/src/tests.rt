// Each public call on its happy path, and the worked record.
use crate::*;
use mem_bdev::Buffer;
use sqe_cqe::Cqe;
use std::test::Fail;

const RECORD: [u8; 32] = [
    1, 0, 0, 0, 2, 1, 0, 0, 0, 0, 0, 0, 0, 0, 0, 0, // head
    0, 0, 0, 0, 0, 0, 0, 0, 0, 0, 1, 0, 1, 0, 0, 0, // completion
];

const WITH_DATA: [u8; 34] = [
    3, 0, 0, 0, 2, 1, 0, 0, 1, 0, 0, 0, 2, 0, 0, 0, // head
    0, 0, 0, 0, 0, 0, 0, 0, 0, 0, 1, 0, 1, 0, 0, 0, // completion
    97, 98,
];

#[test]
fn writes_records(rt: HostRuntime) -> Result<(), Fail> {
    let cqe = Cqe {
        result: 0,
        sq_head: 0,
        sq_id: 1,
        cid: 1,
        status: 0,
    };
    let head = Head {
        place: 1,
        kind: Kind::Execute,
        answer: Answer::Answered,
        number: 0,
        len: 0,
        cqe,
    };
    assert_eq!(rt; write_head(&head), RECORD);
    let mut text = Buffer::with_room(rt.alloc(), 66)?;
    put_record(&head, b"", &mut text);
    let head = Head {
        place: 3,
        number: 1,
        len: 2,
        ..head
    };
    put_record(&head, b"ab", &mut text);
    let bytes = text.bytes();
    assert_eq!(rt; &bytes[..32], RECORD.as_slice());
    assert_eq!(rt; &bytes[32..], WITH_DATA.as_slice());
    for (kind, code) in [
        (Kind::Submit, 1),
        (Kind::Execute, 2),
        (Kind::Poll, 3),
        (Kind::Control, 4),
    ] {
        assert_eq!(rt; kind.code(), code, "{kind:?}");
    }
    for (answer, code) in [
        (Answer::Held, 0),
        (Answer::Answered, 1),
        (Answer::Waiting, 2),
        (Answer::NoEvent, 3),
    ] {
        assert_eq!(rt; answer.code(), code, "{answer:?}");
    }
    Ok(())
}
