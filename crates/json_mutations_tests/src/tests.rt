// Each text is read by both readers, and what they tell is compared byte by byte.
use crate::edit_lines::told;
use crate::mutations::{Dice, random_configuration};
use crate::slow_reader::slow_answer;
use nvmetcli_json::load;

#[test]
fn two_thousand_mutated_configurations(rt: HostRuntime) {
    let alloc = rt.alloc();
    let mut dice = Dice::new(46);
    let mut no_json = 0u64;
    let mut misfits = 0u64;
    for i in 0..2_000 {
        let text = random_configuration(&rt, alloc, &mut dice);
        let answer = told(&rt, alloc, &load(alloc, &text));
        let slow = slow_answer(&rt, alloc, &text);
        assert!(rt; answer.bytes == slow.bytes, "text {i} is read otherwise");
        if answer.bytes.as_slice() == b"no JSON".as_slice() {
            no_json = no_json.saturating_add(1);
        } else if answer.bytes.starts_with(b"member ") {
            misfits = misfits.saturating_add(1);
        }
    }
    assert!(rt; no_json >= 300 && misfits >= 300, "{no_json} and {misfits}");
    assert!(rt;
        no_json.saturating_add(misfits) <= 1_700,
        "{no_json} and {misfits}"
    );
}
