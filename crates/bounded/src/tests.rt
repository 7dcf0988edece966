// Lists of three that are filled.
use crate::list::{Bounded, Full};
use std::test::Fail;

#[test]
fn a_list_takes_what_fits(rt: HostRuntime) -> Result<(), Fail> {
    let mut list: Bounded<u16, 3> = Bounded::new(rt.alloc())?;
    for item in 0..3u16 {
        assert!(rt; list.push(item).is_ok());
    }
    assert_eq!(rt; list.push(3), Err(Full(3)));
    assert_eq!(rt; list.as_slice(), [0u16, 1, 2].as_slice());
    list.as_mut_slice()[0] = 7;
    assert_eq!(rt; list.remove(0), 7);
    assert!(rt; !list.is_full());
    list.clear();
    assert_eq!(rt; list.len(), 0);
    Ok(())
}
