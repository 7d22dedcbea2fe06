ghost use Rattle.std.specs.Prelude.{◌≡◌, ◌≤◌, length};
ghost use Rattle.sqe_cqe.specs.Answers.{view_of};
ghost use Rattle.look_pages.specs.declared.walk.TheConstants.{PAGE};
ghost use Rattle.look_pages.specs.Pages.{zeros};
ghost use Rattle.look_pages.specs.Tables.{page_of};
ghost use Rattle.admin_identify.specs.Namespace.{used_blocks, namespace_fields, namespace_page};

use look_pages::{put, put_byte, put_long, put_word};
use sqe_cqe::{Ana, Bound, Look, NsRow, Seen};

/// Sharing of a namespace (NMIC): more than one controller may have it.
pub const NMIC: u8 = 1;

// The blocks in use: none where the group's state keeps a host from them.
fn used(row: &NsRow, state: Ana) -> u64
    ensures { result ≡ used_blocks row.now state }
{
    match state {
        Ana::Inaccessible | Ana::PersistentLoss => 0,
        Ana::Optimized | Ana::NonOptimized | Ana::Changing => row.blocks,
    }
}

fn put_namespace(row: &NsRow, nuse: u64, rescap: u8, marks: u8, page: &mut [u8])
    requires shift { row.now.shift ≤ 12 }
    requires size { length page.old ≡ PAGE }
    requires zeros { page.old ≡ zeros PAGE }
    ensures { page.new ≡ page_of PAGE (namespace_fields row.now nuse rescap marks) }
{
    put_long(page, 0, row.blocks);
    put_long(page, 8, row.blocks);
    put_long(page, 16, nuse);
    put_byte(page, 26, 0);
    put_byte(page, 30, NMIC);
    put_byte(page, 31, rescap);
    put_word(page, 92, u32::from(row.group));
    put_byte(page, 99, marks);
    put(page, 104, &row.nguid);
    put_word(page, 128, u32::from(row.shift) * 0x1_0000);
}

/// Writes the page of a namespace over zeros; where it isn't enabled they stay.
#[tactic(auto, unfolding(crate::specs::Namespace::namespace_page))]
pub fn write_namespace<L: Look>(b: &Bound, nsid: u32, look: &mut L, page: &mut [u8])
    requires size { length page.old ≡ PAGE }
    requires zeros { page.old ≡ zeros PAGE }
    ensures page { let v = view_of (L.told (L.behind look.old)) b.now in
        page.new ≡ namespace_page v (v.ns nsid) nsid }
    ensures behind { L.behind look.new ≡ L.behind look.old }
{
    let Seen::On(row) = look.ns(b.sub, nsid) else {
        return;
    };
    let nuse = used(&row, look.ana(b.port, u32::from(row.group)));
    let offers = look.offers();
    let marks = look.marks(b.sub, nsid);
    put_namespace(&row, nuse, offers.rescap, marks, page);
}
