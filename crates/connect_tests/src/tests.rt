// The tables are run on the small tree.
ghost use Rattle.std.specs.Prelude.{◌≡◌};
ghost use Rattle.fabrics_connect.specs.After.{AttachedAreThere};

use crate::calls::{Ask, Call, Row, make_call, run};
use crate::folders::{link, small_tree};
use crate::rows::{CC_AND_CSTS, JOINED, NAMES, PROPERTIES, REFUSED, UNLINKED};
use configfs_tree::Tree;
use sqe_cqe::{Binding, Bound, Controllers, ready};
use std::process::Abort;
use std::test::Fail;

// Eight queues that aren't connected.
fn unconnected() -> [Binding; 8] {
    let mut queues = [Binding {
        port: 1,
        bound: None,
    }; 8];
    queues[6].port = 2;
    queues[7].port = 9;
    queues
}

#[test]
fn connects_that_are_refused_and_queues_that_join(rt: HostRuntime) -> Result<(), Fail> {
    let mut t = small_tree(&rt, rt.alloc());
    let mut controllers = Controllers::new(rt.alloc())?;
    let mut queues = unconnected();
    run(&rt, &mut t, &mut controllers, &mut queues, REFUSED, 0);
    assert_eq!(rt; controllers.rows().len(), 0);
    assert_eq!(rt; queues, unconnected());
    run(&rt, &mut t, &mut controllers, &mut queues, JOINED, 0);
    assert_eq!(rt; controllers.rows().len(), 1);
    assert_eq!(rt; controllers.rows()[0].qids, (1 << 127) | 3);
    Ok(())
}

#[test]
#[tactic(auto, using(crate::proofs::Attached::still_there))]
fn names_of_subsystems_and_hosts(rt: HostRuntime) -> Result<(), Fail> {
    let mut t = small_tree(&rt, rt.alloc());
    let mut controllers = Controllers::new(rt.alloc())?;
    let mut queues = unconnected();
    run(&rt, &mut t, &mut controllers, &mut queues, NAMES, 0);
    link(&rt, &mut t, 1, "testnqn", false);
    run(&rt, &mut t, &mut controllers, &mut queues, UNLINKED, 0);
    assert_eq!(rt; controllers.rows().len(), 4);
    Ok(())
}

const ADMIN: Call = Call::Connect(Ask(b"testnqn", b"hostnqn", 0xffff, 0, 31));

// Sets CC to each value of a table on queue 0, and reads CC and CSTS. The controller is ready where
// EN and RDY are both 1.
fn set_all(
    rt: &impl Abort,
    t: &mut Tree,
    controllers: &mut Controllers,
    queues: &mut [Binding],
    rows: &[(u64, bool, u64, u64)],
)
    requires { AttachedAreThere t.old controllers.old }
    ensures { AttachedAreThere t.new controllers.new }
{
    match rows {
        [] => {}
        [row, rest @ ..] => {
            let (value, published, cc, csts) = *row;
            let calls = [
                Row(0, Call::Set(false, 0x14, value), 0, 0, 0, published),
                Row(0, Call::Get(false, 0x14), 0, cc, 0, false),
                Row(0, Call::Get(false, 0x1c), 0, csts, 0, false),
            ];
            run(rt, t, controllers, queues, &calls, 0);
            let want = cc % 2 == 1 && csts == 1;
            assert_eq!(rt; ready(controllers, 1), want, "CC {value}");
            set_all(rt, t, controllers, queues, rest);
        }
    }
}

#[test]
fn properties_of_a_controller(rt: HostRuntime) -> Result<(), Fail> {
    let mut t = small_tree(&rt, rt.alloc());
    let mut controllers = Controllers::new(rt.alloc())?;
    let mut queues = unconnected();
    let admin = [Row(0, ADMIN, 0, 1, 0, true)];
    run(&rt, &mut t, &mut controllers, &mut queues, &admin, 0);
    run(&rt, &mut t, &mut controllers, &mut queues, PROPERTIES, 0);
    set_all(&rt, &mut t, &mut controllers, &mut queues, CC_AND_CSTS);
    Ok(())
}

#[test]
fn what_a_new_controller_tells(rt: HostRuntime) -> Result<(), Fail> {
    let mut t = small_tree(&rt, rt.alloc());
    let mut controllers = Controllers::new(rt.alloc())?;
    let mut b = Binding {
        port: 2,
        bound: None,
    };
    let told = make_call(&rt, &mut t, &mut controllers, &mut b, ADMIN);
    let ctrl = told.made.expect(&rt, "a controller");
    let bound = Bound {
        ctrl: 1,
        qid: 0,
        sub: 0,
        port: 1,
    };
    assert_eq!(rt; ctrl.bound, bound);
    assert_eq!(rt; b.bound, Some(bound));
    assert_eq!(rt; ctrl.since, 0);
    assert_eq!(rt; &ctrl.subnqn[..8], b"testnqn\0".as_slice());
    assert_eq!(rt; ctrl.serial, *b"00000000000000000001");
    assert_eq!(rt;
        ctrl.model_name,
        *b"Linux                                   "
    );
    Ok(())
}
