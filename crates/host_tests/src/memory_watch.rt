use crate::scripts::{is_made, size_read, watch_script, watch_told};
use dns_data::Text;
use outside::{Look, Watch, Wrote};
use outside_mem::MemWatch;
use std::test::Fail;

#[test]
fn a_watch_goes_through_its_sets(rt: HostRuntime) -> Result<(), Fail> {
    let name = Text::from_str(rt.alloc(), "Corefile")?;
    let mut watch = MemWatch::new(rt.alloc(), watch_script(rt.alloc(), &[3, 4])?)?;
    // A read of the first set, and one that is to fail.
    let before = [size_read(&mut watch, &name), size_read(&mut watch, &name)];
    let look = watch.look(30_000, 15_000);
    let size = size_read(&mut watch, &name);
    let end = watch.look(30_000, 15_000);
    assert_eq!(rt; (before, size), ([Some(3), None], Some(4)));
    assert_eq!(rt; [look, end], [Look::Look, Look::End]);
    assert_eq!(rt; watch_told(&watch), Some(5));
    Ok(())
}

#[test]
fn a_watch_notes_tells_and_makes_patterns(rt: HostRuntime) -> Result<(), Fail> {
    let text = Text::from_str(rt.alloc(), "^a+$")?;
    let mut watch = MemWatch::new(rt.alloc(), watch_script(rt.alloc(), &[])?)?;
    let wrote = [watch.note(b"a"), watch.note(b"b")];
    watch.saw_published(1);
    assert_eq!(rt; wrote, [Wrote::Failed, Wrote::Ok]);
    assert_eq!(rt; watch_told(&watch), Some(3));
    assert!(rt; is_made(rt.alloc(), &mut watch, &text));
    Ok(())
}

#[test]
fn a_read_gives_one_byte_more_than_a_file_may_have(rt: HostRuntime) -> Result<(), Fail> {
    let name = Text::from_str(rt.alloc(), "Corefile")?;
    let mut watch = MemWatch::new(rt.alloc(), watch_script(rt.alloc(), &[1_048_578])?)?;
    assert_eq!(rt; size_read(&mut watch, &name), Some(1_048_577));
    Ok(())
}
