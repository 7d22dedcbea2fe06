// A record compared with what its call replied and gave.
ghost use Rattle.std.specs.Prelude.{◌≡◌, Decides};
ghost use Rattle.run_transcript.specs.Printing.{answer_of, completion_of};
ghost use Rattle.check_records.specs.Told.{reply_told};
ghost use Rattle.check_records.specs.Steps.{Compares, IsBlankUnlessAnswered, is_queue_reply};

use run_records::{Answer, Head};
use run_verdicts::Field;
use sqe_cqe::Cqe;
use tree_target::Reply;

fn answer(reply: &Reply) -> Answer
    ensures { result ≡ answer_of reply.now }
{
    match reply {
        Reply::Held => Answer::Held,
        Reply::Answered(_) => Answer::Answered,
        Reply::Waiting => Answer::Waiting,
        Reply::NoEvent | Reply::Accepted | Reply::Errno(_) | Reply::Ended => Answer::NoEvent,
    }
}

fn completion(reply: &Reply) -> Cqe
    ensures { result ≡ completion_of reply.now }
{
    match reply {
        Reply::Answered(cqe) => *cqe,
        Reply::Held
        | Reply::Waiting
        | Reply::NoEvent
        | Reply::Accepted
        | Reply::Errno(_)
        | Reply::Ended => Cqe {
            result: 0,
            sq_head: 0,
            sq_id: 0,
            cid: 0,
            status: 0,
        },
    }
}

fn is_same_answer(a: Answer, b: Answer) -> bool
    ensures { Decides result (a ≡ b) }
{
    a == b
}

fn is_same_completion(a: &Cqe, b: &Cqe) -> bool
    ensures { Decides result (a.now ≡ b.now) }
{
    a == b
}

fn are_same_bytes(a: &[u8], b: &[u8]) -> bool
    ensures { Decides result (a.now ≡ b.now) }
{
    a == b
}

// Whether a reply is one that a call of a queue can have.
fn is_of_queue(reply: &Reply) -> bool
    ensures { result ≡ is_queue_reply reply.now }
{
    match reply {
        Reply::Held | Reply::Answered(_) | Reply::Waiting | Reply::NoEvent => true,
        Reply::Accepted | Reply::Errno(_) | Reply::Ended => false,
    }
}

/// The first field in which a record differs from what its call replied and gave. An editor's reply
/// to it is one that no record tells.
pub fn difference(head: &Head, data: &[u8], reply: &Reply, bytes: &[u8]) -> Option<Field>
    requires { IsBlankUnlessAnswered head.now }
    ensures { Compares (reply_told head.now.answer head.now.cqe) data.now reply.now bytes.now
        result }
{
    if !is_same_answer(head.answer, answer(reply)) {
        return Some(Field::Answer);
    }
    if !is_same_completion(&head.cqe, &completion(reply)) {
        return Some(Field::Completion);
    }
    if !are_same_bytes(data, bytes) {
        return Some(Field::Bytes);
    }
    if !is_of_queue(reply) {
        return Some(Field::Errno);
    }
    None
}
