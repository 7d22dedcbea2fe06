ghost use Rattle.std.specs.Prelude.{◌≡◌, length};
ghost use Rattle.sqe_cqe.specs.Answers.{view_of};
ghost use Rattle.look_pages.specs.declared.walk.TheConstants.{PAGE};
ghost use Rattle.look_pages.specs.Pages.{zeros};
ghost use Rattle.admin_identify.specs.ActiveList.{active_list_page};

use look_pages::{Choice, emit_nsids};
use sqe_cqe::{Bound, Look};

/// Writes the list of enabled NSIDs above an NSID over zeros: rising, at most 1,024 of them.
pub fn write_active_list<L: Look>(b: &Bound, above: u32, look: &mut L, page: &mut [u8])
    requires size { length page.old ≡ PAGE }
    requires zeros { page.old ≡ zeros PAGE }
    ensures page { let v = view_of (L.told (L.behind look.old)) b.now in
        page.new ≡ active_list_page v above }
    ensures behind { L.behind look.new ≡ L.behind look.old }
{
    let _end = emit_nsids(Choice::Enabled(above), b, 0, 0, look, page);
}
