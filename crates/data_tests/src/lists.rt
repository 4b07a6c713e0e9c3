use dns_lists::{Bytes, Copies, NoMemory, Seq, Text, Wire};
use std::alloc::Global;
use std::test::Fail;

#[test]
fn bytes_keep_what_they_are_given(rt: HostRuntime) -> Result<(), Fail> {
    let mut bytes = Bytes::from_slice(rt.alloc(), &[1, 2])?;
    bytes.push(3)?;
    bytes.append(&[4, 5])?;
    let copy = bytes.copy(rt.alloc())?;
    assert_eq!(rt; copy.as_slice(), [1, 2, 3, 4, 5].as_slice());
    Ok(())
}

#[test]
fn texts_keep_what_they_are_given(rt: HostRuntime) -> Result<(), Fail> {
    let mut text = Text::from_str(rt.alloc(), "Gr")?;
    text.push('ö')?;
    text.append("ße")?;
    let copy = text.copy(rt.alloc())?;
    assert_eq!(rt; (copy.as_str(), copy.len(), copy.at(2)), ("Größe", 7, 0xc3));
    Ok(())
}

#[test]
fn a_list_gives_back_what_was_put_in(rt: HostRuntime) -> Result<(), Fail> {
    let mut list: Seq<Text> = Seq::with_capacity(rt.alloc(), 1)?;
    list.push(Text::from_str(rt.alloc(), "bc")?)?;
    let mut copy = list.copy(rt.alloc())?;
    assert!(rt; copy.pop().is_some_and(|last| last.is("bc")));
    assert!(rt; copy.pop().is_none());
    Ok(())
}

// 40 bytes, of which 38 are the most that stand in a `Wire` itself.
const LETTERS: &[u8; 40] = b"abcdefghijklmnopqrstuvwxyzabcdefghijklmn";

#[test]
fn bytes_of_a_name_are_the_same_in_the_value_and_in_memory(rt: HostRuntime) -> Result<(), Fail> {
    for size in 36..41 {
        let made = [
            copied(rt.alloc(), &LETTERS[..size])?,
            set(rt.alloc(), &LETTERS[..size])?,
            grown(rt.alloc(), &LETTERS[..size])?,
            labelled(rt.alloc(), &LETTERS[..size])?,
        ];
        assert_eq!(rt; made, [true, true, true, true], "{size} bytes");
    }
    Ok(())
}

fn copied(alloc: Global, bytes: &[u8]) -> Result<bool, NoMemory> {
    let wire = Wire::from_slice(alloc, bytes)?.copy(alloc)?;
    Ok(wire.as_slice() == bytes)
}

fn set(alloc: Global, bytes: &[u8]) -> Result<bool, NoMemory> {
    let mut wire = Wire::new(alloc);
    wire.set(bytes)?;
    Ok(wire.as_slice() == bytes)
}

fn grown(alloc: Global, bytes: &[u8]) -> Result<bool, NoMemory> {
    let (front, last) = bytes.split_at(bytes.len() / 2);
    let mut wire = Wire::with_capacity(alloc, bytes.len())?;
    wire.extend(front)?;
    wire.extend(last)?;
    Ok(wire.as_slice() == bytes)
}

fn labelled(alloc: Global, bytes: &[u8]) -> Result<bool, NoMemory> {
    let mut wire = Wire::with_label(alloc, b"ab", bytes)?;
    wire.push_label(b"c")?;
    Ok(wire.as_slice().starts_with(b"\x02ab") && wire.as_slice().ends_with(b"\x01c"))
}
