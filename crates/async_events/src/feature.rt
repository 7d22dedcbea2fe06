ghost use Rattle.std.specs.Prelude.{◌≡◌};
ghost use Rattle.async_events.specs.Features.{bit, notice_bits, set_answer, get_answer, stored, feature_answer, feature_after};

use crate::events::Events;
use sqe_cqe::{DATA_SGL_LENGTH_INVALID, INVALID_FIELD, INVALID_OPCODE, SUCCESS, Sqe};

/// Opcode of Set Features.
pub const SET_FEATURES: u8 = 0x09;

/// Opcode of Get Features.
pub const GET_FEATURES: u8 = 0x0a;

/// Feature Number of Queues.
pub const NUMBER_OF_QUEUES: u32 = 0x07;

/// Feature Asynchronous Event Configuration: bit 8 for namespace notices, bit 11 for ANA notices.
pub const ASYNC_EVENTS: u32 = 0x0b;

/// Feature Keep Alive Timer, in milliseconds.
pub const KEEP_ALIVE_TIMER: u32 = 0x0f;

/// The I/O queues that there are, counted from 0: 128 submission queues in the low half (NSQA), 128
/// completion queues in the high half (NCQA).
pub const QUEUES: u32 = 0x007f_007f;

fn bits_of(ns: bool, ana: bool) -> u32
    ensures { result ≡ notice_bits ns ana }
{
    let ns_bit = if ns { 0x100 } else { 0 };
    let ana_bit = if ana { 0x800 } else { 0 };
    ns_bit + ana_bit
}

fn has_ns_bit(word: u32) -> bool
    ensures { result ≡ bit 8 word }
{
    word / 0x100 % 2 == 1
}

fn has_ana_bit(word: u32) -> bool
    ensures { result ≡ bit 11 word }
{
    word / 0x800 % 2 == 1
}

// The status and the result of a feature that is set to a word.
fn set_word(id: u32, word: u32) -> (u16, u32)
    ensures { result ≡ set_answer id word }
{
    if id == NUMBER_OF_QUEUES {
        if word % 0x1_0000 == 0xffff || word / 0x1_0000 == 0xffff {
            return (INVALID_FIELD, 0);
        }
        return (SUCCESS, QUEUES);
    }
    if id == ASYNC_EVENTS {
        if word != bits_of(has_ns_bit(word), has_ana_bit(word)) {
            return (INVALID_FIELD, 0);
        }
        return (SUCCESS, 0);
    }
    if id == KEEP_ALIVE_TIMER {
        return (SUCCESS, 0);
    }
    (INVALID_FIELD, 0)
}

// The status and the result of a feature that is asked for.
fn get_word(id: u32, ev: &Events) -> (u16, u32)
    ensures { result ≡ get_answer id ev.now }
{
    if id == NUMBER_OF_QUEUES {
        return (SUCCESS, QUEUES);
    }
    if id == ASYNC_EVENTS {
        return (SUCCESS, bits_of(ev.ns.on, ev.ana.on));
    }
    if id == KEEP_ALIVE_TIMER {
        return (SUCCESS, ev.kato);
    }
    (INVALID_FIELD, 0)
}

fn store(id: u32, word: u32, ev: &mut Events)
    ensures { ev.new ≡ stored id word ev.old }
{
    if id == ASYNC_EVENTS {
        ev.ns.on = has_ns_bit(word);
        ev.ana.on = has_ana_bit(word);
    } else if id == KEEP_ALIVE_TIMER {
        ev.kato = word;
    }
}

/// The status and the result of Set Features (09h) and Get Features (0Ah) of a connected admin queue,
/// whose flags were found in order and whose controller is ready. Their own checks come in this order:
/// an SGL length other than 0 is 801Eh; then 8004h for an unknown feature, for Number of Queues with a
/// half of FFFFh, and for Asynchronous Event Configuration with a bit other than 8 and 11. Another
/// opcode is 8002h. A refused command changes nothing. Set Features has its kinds caught up before.
#[tactic(auto, unfolding(crate::specs::Features::feature_answer, crate::specs::Features::feature_after))]
pub fn features(ev: &mut Events, e: &Sqe) -> (u16, u32)
    ensures answer { result ≡ feature_answer ev.old e.now }
    ensures after { ev.new ≡ feature_after ev.old e.now }
{
    if e.opcode != SET_FEATURES && e.opcode != GET_FEATURES {
        return (INVALID_OPCODE, 0);
    }
    if e.sgl_len != 0 {
        return (DATA_SGL_LENGTH_INVALID, 0);
    }
    let id = e.cdw10 % 0x100;
    if e.opcode == GET_FEATURES {
        return get_word(id, ev);
    }
    let (status, value) = set_word(id, e.cdw11);
    if status == SUCCESS {
        store(id, e.cdw11, ev);
    }
    (status, value)
}
