//! What a caller does with a trail.

use crate::Trail;
use spec_model::event::Mark;
use std::test::Fail;

#[test]
fn each_path_is_found_by_its_number(rt: HostRuntime) -> Result<(), Fail> {
    let alloc = rt.alloc();
    let mut trail = Trail::new(alloc)?;
    assert_eq!(rt; trail.len(), 1);
    let taken = trail.push(alloc, 0, Mark::Take(3))?;
    assert_eq!(rt; (taken, trail.len()), (1, 2));
    let first_arm = trail.push(alloc, taken, Mark::Arm(0))?;
    let second_arm = trail.push(alloc, taken, Mark::Arm(1))?;
    let sent = trail.push(alloc, first_arm, Mark::Send(3))?;
    let nothing = trail.path(alloc, 0)?;
    assert!(rt; nothing.is_empty());
    let path = trail.path(alloc, sent)?;
    assert_eq!(rt;
        path.as_slice(),
        [Mark::Take(3), Mark::Arm(0), Mark::Send(3)].as_slice()
    );
    let path = trail.path(alloc, second_arm)?;
    assert_eq!(rt; path.as_slice(), [Mark::Take(3), Mark::Arm(1)].as_slice());
    Ok(())
}

#[test]
fn shared_beginnings_stay_once(rt: HostRuntime) -> Result<(), Fail> {
    let alloc = rt.alloc();
    let mut trail = Trail::new(alloc)?;
    let left_out = trail.push(alloc, 0, Mark::Take(0))?;
    let taken = trail.push(alloc, 0, Mark::Take(1))?;
    let dropped = trail.push(alloc, left_out, Mark::Pick)?;
    let found = trail.push(alloc, taken, Mark::Test(true))?;
    let missing = trail.push(alloc, taken, Mark::Test(false))?;
    assert_eq!(rt; (dropped, found, missing), (3, 4, 5));
    let mut steps = [missing, found, missing];
    trail.keep_only(alloc, &mut steps)?;
    assert_eq!(rt; trail.len(), 4);
    assert_eq!(rt; steps, [3, 2, 3]);
    let path = trail.path(alloc, steps[1])?;
    assert_eq!(rt;
        path.as_slice(),
        [Mark::Take(1), Mark::Test(true)].as_slice()
    );
    let sent = trail.push(alloc, steps[0], Mark::Send(1))?;
    let path = trail.path(alloc, sent)?;
    assert_eq!(rt;
        path.as_slice(),
        [Mark::Take(1), Mark::Test(false), Mark::Send(1)].as_slice()
    );
    trail.keep_only(alloc, &mut [])?;
    assert_eq!(rt; trail.len(), 1);
    Ok(())
}
