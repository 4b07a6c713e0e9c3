use crate::scripts::{asked, failing, more, received, see, side_script, told};
use outside::{Side, Wrote};
use outside_mem::MemSide;
use std::test::Fail;

#[test]
fn a_side_gives_its_datagrams_and_then_the_end(rt: HostRuntime) -> Result<(), Fail> {
    let mut side = MemSide::new(rt.alloc(), side_script(rt.alloc())?)?;
    let got = [
        received(&mut side),
        received(&mut side),
        received(&mut side),
    ];
    assert_eq!(rt; got, [Some(1), Some(2), None]);
    Ok(())
}

#[test]
fn a_side_repeats_its_last_readings(rt: HostRuntime) -> Result<(), Fail> {
    let mut side = MemSide::new(rt.alloc(), side_script(rt.alloc())?)?;
    assert_eq!(rt; [side.now(), side.now(), side.now()], [7, 9, 9]);
    assert_eq!(rt; [side.word(), side.word()], [5, 5]);
    assert_eq!(rt; told(&side), Some(5));
    Ok(())
}

#[test]
fn a_call_that_is_to_fail_uses_up_no_item(rt: HostRuntime) -> Result<(), Fail> {
    let mut side = MemSide::new(rt.alloc(), failing(side_script(rt.alloc())?, 0)?)?;
    let got = [
        received(&mut side),
        received(&mut side),
        more(&mut side),
        asked(&mut side),
        more(&mut side),
        asked(&mut side),
    ];
    assert_eq!(rt; got, [None, Some(1), None, Some(3), Some(4), None]);
    Ok(())
}

#[test]
fn a_side_tells_what_went_out_and_what_it_saw(rt: HostRuntime) -> Result<(), Fail> {
    let mut side = MemSide::new(rt.alloc(), failing(side_script(rt.alloc())?, 0)?)?;
    let wrote = [
        side.send(b"a"),
        side.send(b"b"),
        side.note(b"a"),
        side.note(b"b"),
    ];
    assert_eq!(rt; wrote, [Wrote::Failed, Wrote::Ok, Wrote::Failed, Wrote::Ok]);
    see(&mut side, rt.alloc())?;
    side.leave();
    assert_eq!(rt; told(&side), Some(9));
    Ok(())
}
