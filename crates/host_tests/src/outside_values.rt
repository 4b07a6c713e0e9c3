use dns_data::{Addr, Bytes, NoMemory, Transport};
use outside::{FileSet, InnerMark, Kept, Light, Outcome, Upstream};
use std::alloc::Global;
use std::test::Fail;

#[test]
fn marks_are_kept_until_they_are_too_heavy(rt: HostRuntime) -> Result<(), Fail> {
    let mut kept = Kept::On(Light::new(rt.alloc()));
    kept.keep(asked(rt.alloc(), 16_384)?)?;
    kept.keep(InnerMark::More(Outcome::Silence))?;
    assert!(rt; kept.is_on());
    kept.keep(InnerMark::Word(0))?;
    assert!(rt; !kept.is_on());
    Ok(())
}

// An ask by a message of so many bytes that nothing came of.
fn asked(alloc: Global, size: usize) -> Result<InnerMark, NoMemory> {
    let message = Bytes::of(Vec::from_elem(alloc, 0, size)?);
    let to = Upstream {
        addr: Addr::V4(0x7f00_0001),
        port: 53,
    };
    Ok(InnerMark::Asked(to, Transport::Udp, message, Outcome::Silence))
}

#[test]
fn a_set_of_one_file_holds_it(rt: HostRuntime) -> Result<(), Fail> {
    let set = FileSet::of_file(rt.alloc(), "Corefile", b". {")?;
    let name = set.files.as_slice().first().map(|file| file.name.as_str());
    assert_eq!(rt; name, Some("Corefile"));
    Ok(())
}
