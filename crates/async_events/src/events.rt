ghost use Rattle.std.specs.Prelude.{◌≡◌, ◌≤◌, ◌==◌, if◌then◌else◌, length};
ghost use Rattle.sqe_cqe.specs.declared.codes.TheConstants.{SUCCESS};
ghost use Rattle.sqe_cqe.specs.Answers.{view_of};
ghost use Rattle.async_events.specs.declared.waits.TheConstants.{MOST_WAITING};
ghost use Rattle.async_events.specs.Notices.{fresh, raise, taken};
ghost use Rattle.async_events.specs.Stamps.{any_after, stamps_of, caught_up_with, begun, noted, with_notices, read_at, requested, is_full, cleared_of};

use crate::kinds::{Kind, Log};
use crate::waits::Waiting;
use sqe_cqe::{Bound, Ctrl, Look, SUCCESS};

/// Status field Asynchronous Event Request Limit Exceeded, with Do Not Retry.
pub const REQUEST_LIMIT: u16 = 0x820a;

/// The result that completes an event request with a namespace notice: type 02h (Notice), information
/// 00h (Namespace Attribute Changed), log page 04h.
pub const NAMESPACE_NOTICE: u32 = 0x0004_0002;

/// The same with an ANA notice: type 02h, information 03h (Asymmetric Namespace Access Change), log
/// page 0Ch.
pub const ANA_NOTICE: u32 = 0x000c_0302;

/// What is kept of a controller beside its published row: its two kinds as of the serial up to which
/// they are caught up, the serial of its last clearing read of the changed list, the event requests
/// that wait, and its keep alive time.
#[derive(Drop)]
pub struct Events {
    pub(crate) seen: u32,
    pub(crate) cleared: u32,
    pub(crate) kato: u32,
    pub(crate) ns: Kind,
    pub(crate) ana: Kind,
    pub(crate) waiting: Waiting,
}

fn new_kind() -> Kind
    ensures { result ≡ fresh }
{
    Kind {
        on: true,
        masked: false,
        pending: false,
    }
}

fn raise_kind(changed: bool, kind: Kind) -> Kind
    ensures { result ≡ raise changed kind }
{
    if changed && kind.on && !kind.masked {
        Kind {
            on: true,
            masked: true,
            pending: true,
        }
    } else {
        kind
    }
}

// Whether a namespace of the queue's subsystem changed after this serial.
fn any_changed<L: Look>(b: &Bound, seen: u32, look: &mut L) -> bool
    ensures value { let v = view_of (L.told (L.behind look.old)) b.now in
        result ≡ any_after v.offers.nsids seen (stamps_of v) }
    ensures behind { L.behind look.new ≡ L.behind look.old }
{
    let offers = look.offers();
    for at in 0..offers.nsids {
        if look.ns_stamp(b.sub, at + 1) > seen {
            return true;
        }
    }
    false
}

// The kind namespace at the look's changes. Where it can't be raised, no NSID is looked at.
#[tactic(auto, using(crate::proofs::Folds::raise_idle))]
fn at_changes<L: Look>(b: &Bound, seen: u32, kind: Kind, look: &mut L) -> Kind
    ensures value { let v = view_of (L.told (L.behind look.old)) b.now in
        result ≡ raise (any_after v.offers.nsids seen (stamps_of v)) kind }
    ensures behind { L.behind look.new ≡ L.behind look.old }
{
    if !kind.on || kind.masked {
        return kind;
    }
    raise_kind(any_changed(b, seen, look), kind)
}

impl Events {
    /// Of a controller that connects at this serial, with this keep alive time in milliseconds: both
    /// kinds are on, nothing is masked or pending, and no request waits.
    pub fn new(since: u32, kato: u32) -> Self
        ensures { result ≡ begun since kato }
    {
        Events {
            seen: since,
            cleared: since,
            kato,
            ns: new_kind(),
            ana: new_kind(),
            waiting: Waiting::new(),
        }
    }

    /// The serial of the last read that emptied the changed list, or of the Connect.
    pub fn cleared(&self) -> u32
        ensures { result ≡ cleared_of self.now }
    {
        self.cleared
    }

    /// Merges all changes up to the look's serial into the kinds. It comes before `take`, before a log
    /// read with Retain Asynchronous Event 0, and before the notices are configured.
    #[tactic(auto, unfolding(crate::specs::Stamps::caught_up))]
    pub fn catch_up<L: Look>(&mut self, c: &Ctrl, look: &mut L)
        ensures value { let v = view_of (L.told (L.behind look.old)) c.now.bound in
            self.new ≡ caught_up_with v self.old }
        ensures behind { L.behind look.new ≡ L.behind look.old }
    {
        self.ns = at_changes(&c.bound, self.seen, self.ns, look);
        let stamp = look.ana_stamp(c.bound.sub, c.bound.port);
        self.ana = raise_kind(stamp > self.seen, self.ana);
        self.seen = look.serial();
    }

    /// An event request with this command identifier: it waits, with status 0; or 820Ah exactly where
    /// four wait, and nothing changes.
    #[tactic(auto, unfolding(crate::specs::Stamps::requested))]
    pub fn request(&mut self, cid: u16) -> u16
        ensures status { result ≡ (if is_full self.old then REQUEST_LIMIT else SUCCESS) }
        ensures after { self.new ≡ (if is_full self.old then self.old else requested cid self.old) }
    {
        if self.waiting.is_full() {
            return REQUEST_LIMIT;
        }
        self.waiting.push(cid);
        SUCCESS
    }

    /// Completes a waiting event request, where a notice is pending: its command identifier, and the
    /// result. The request that was submitted last comes first, and a namespace notice before an ANA
    /// notice. `None` exactly where no request waits or nothing is pending; then nothing changes.
    pub fn take(&mut self) -> Option<(u16, u32)>
        ensures value { result ≡ (taken (noted self.old)).1 }
        ensures after { self.new ≡ with_notices self.old (taken (noted self.old)).0 }
    {
        if !self.ns.pending && !self.ana.pending {
            return None;
        }
        let Some(id) = self.waiting.pop() else {
            return None;
        };
        if self.ns.pending {
            self.ns.pending = false;
            Some((id, NAMESPACE_NOTICE))
        } else {
            self.ana.pending = false;
            Some((id, ANA_NOTICE))
        }
    }

    /// A log was read with Retain Asynchronous Event 0 at this serial: its kind is unmasked, and what
    /// is pending stays. After a read of the changed list, that list holds what changes from here on.
    #[tactic(auto, unfolding(crate::specs::Stamps::read_at))]
    pub fn read_done(&mut self, log: Log, serial: u32)
        ensures { self.new ≡ read_at log serial self.old }
    {
        match log {
            Log::Changed => {
                self.ns.masked = false;
                self.cleared = serial;
            }
            Log::Ana => self.ana.masked = false,
        }
    }
}
