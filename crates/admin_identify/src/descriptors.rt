ghost use Rattle.std.specs.Prelude.{◌≡◌, ◌==◌, ◌+◌, ◌<◌, ◌≤◌, ◌^◌, length};
ghost use Rattle.std.specs.List.{list_all};
ghost use Rattle.sqe_cqe.specs.Answers.{view_of};
ghost use Rattle.look_pages.specs.declared.walk.TheConstants.{PAGE};
ghost use Rattle.look_pages.specs.Pages.{Emits, zeros};
ghost use Rattle.admin_identify.specs.Descriptors.{is_zero, identifier, descriptor_bytes, descriptor_page};

use look_pages::emit;
use sqe_cqe::{Bound, Look, NsRow, Seen};

/// The type of a descriptor with an NGUID of 16 bytes (NIDT).
pub const NIDT_NGUID: u8 = 2;

/// The type of a descriptor with a UUID of 16 bytes.
pub const NIDT_UUID: u8 = 3;

/// The type of a descriptor with a command set identifier (CSI) of one byte.
pub const NIDT_CSI: u8 = 4;

// Whether an identifier isn't set.
fn is_unset(id: &[u8; 16]) -> bool
    ensures { result ≡ is_zero id.now }
{
    id.iter().all(|byte| *byte == 0)
}

// Adds the descriptor of an identifier that is set, and tells where the page goes on.
#[tactic(auto, using(look_pages::proofs::Parts::emits_none, look_pages::proofs::Parts::emits_both))]
fn emit_identifier(nidt: u8, id: &[u8; 16], at: u64, page: &mut [u8]) -> u64
    requires { at ≤ 4096 }
    ensures emits { Emits 0 at page.old page.new (identifier nidt id.now) }
    ensures at { result ≡ at + length (identifier nidt id.now) }
    ensures few { result ≤ at + 20 }
{
    if is_unset(id) {
        return at;
    }
    emit(page, 0, at, &[nidt, 16, 0, 0]);
    emit(page, 0, at + 4, id);
    at + 20
}

// Adds all descriptors of a namespace.
fn emit_descriptors(row: &NsRow, page: &mut [u8])
    ensures emits { Emits 0 0 page.old page.new (descriptor_bytes row.now) }
    ensures small { length (descriptor_bytes row.now) ≤ PAGE }
{
    let after_uuid = emit_identifier(NIDT_UUID, &row.uuid, 0, page);
    let after_nguid = emit_identifier(NIDT_NGUID, &row.nguid, after_uuid, page);
    emit(page, 0, after_nguid, &[NIDT_CSI, 1, 0, 0, 0]);
}

/// Writes the descriptors of a namespace over zeros: its UUID and its NGUID where they are set, and its
/// command set, NVM. Where it isn't enabled the zeros stay.
#[tactic(auto, unfolding(crate::specs::Descriptors::descriptor_page))]
pub fn write_descriptors<L: Look>(b: &Bound, nsid: u32, look: &mut L, page: &mut [u8])
    requires size { length page.old ≡ PAGE }
    requires zeros { page.old ≡ zeros PAGE }
    ensures page { let v = view_of (L.told (L.behind look.old)) b.now in
        page.new ≡ descriptor_page (v.ns nsid) }
    ensures behind { L.behind look.new ≡ L.behind look.old }
{
    if let Seen::On(row) = look.ns(b.sub, nsid) {
        emit_descriptors(&row, page);
    }
}
