use dns_lists::Text;
use dns_names::Name;
use std::test::Fail;

#[test]
fn a_name_changes_in_the_room_that_is_there(rt: HostRuntime) -> Result<(), Fail> {
    let mut name = Name::root(rt.alloc());
    name.push(b"Www")?;
    let other = name.lower(rt.alloc())?;
    assert_eq!(rt; other.as_wire(), b"\x03www".as_slice());
    name.set(&other)?;
    assert_eq!(rt; name.as_wire(), b"\x03www".as_slice());
    Ok(())
}

#[test]
fn a_name_is_written_in_small_letters(rt: HostRuntime) -> Result<(), Fail> {
    let mut text = Text::new(rt.alloc());
    Name::root(rt.alloc()).write_lower(rt.alloc(), &mut text)?;
    assert_eq!(rt; text.as_str(), ".");
    Ok(())
}
