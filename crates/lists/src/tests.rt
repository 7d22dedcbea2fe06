//! Each call once at a concrete type, with ample memory.
use crate::items::Items;
use std::test::Fail;

#[test]
fn a_list_is_changed_in_place(rt: HostRuntime) -> Result<(), Fail> {
    let mut list: Items<u16> = Items::new(rt.alloc());
    assert_eq!(rt; list.len(), 0);
    list.push(3)?;
    list.push(4)?;
    list.push_front(2)?;
    assert_eq!(rt; list.as_slice(), [2, 3, 4].as_slice());
    list.put(1, 9);
    list.put(3, 7);
    assert_eq!(rt; list.as_slice(), [2, 9, 4].as_slice());
    assert_eq!(rt; list.at_or(2, 1), 4);
    assert_eq!(rt; list.at_or(3, 1), 1);
    assert!(rt; list.len() == 3);
    assert_eq!(rt; *list.at(0), 2);
    *list.at_mut(2) = 5;
    assert_eq!(rt; list.remove(1), 9);
    assert_eq!(rt; list.as_slice(), [2, 5].as_slice());
    Ok(())
}

#[test]
fn a_list_is_made_of_others(rt: HostRuntime) -> Result<(), Fail> {
    let alloc = rt.alloc();
    let twos: Items<u8> = Items::copies(alloc, 3, 2)?;
    assert_eq!(rt; twos.as_slice(), [2, 2, 2].as_slice());
    let pair = Items::from_vec([5, 6].to_vec(alloc)?);
    let all = twos.concat(alloc, &pair)?;
    assert_eq!(rt; all.as_slice(), [2, 2, 2, 5, 6].as_slice());
    assert_eq!(rt; pair.with_front(alloc, 4)?.as_slice(), [4, 5, 6].as_slice());
    assert_eq!(rt; pair.with_back(alloc, 4)?.as_slice(), [5, 6, 4].as_slice());
    assert_eq!(rt; pair.into_vec().as_slice(), [5, 6].as_slice());
    Ok(())
}
