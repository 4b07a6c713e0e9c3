use crate::{Reached, StepName, picked_line, step_names};
use dns_data::{Block, BlockKey, Directive, Name, NoMemory, Seq, Text};
use std::alloc::Global;
use std::test::Fail;

fn reached(alloc: Global, line: u32, name: &str, say: &str) -> Result<Reached, NoMemory> {
    Ok(Reached {
        line,
        name: Text::from_str(alloc, name)?,
        say: Text::from_str(alloc, say)?,
    })
}

#[test]
fn a_step_is_told_with_its_line(rt: HostRuntime) -> Result<(), Fail> {
    let alloc = rt.alloc();
    let step = reached(alloc, 3, "template", "not a record")?;
    assert!(rt; step.text(alloc)?.is("template line 3: not a record"));
    Ok(())
}

#[test]
fn the_end_of_a_chain_stands_in_no_line(rt: HostRuntime) -> Result<(), Fail> {
    let alloc = rt.alloc();
    let end = reached(alloc, 0, "end of chain", "")?;
    assert!(rt; end.text(alloc)?.is("end of chain"));
    Ok(())
}

fn directive(alloc: Global, name: &str, line: u32) -> Result<Directive, NoMemory> {
    Ok(Directive {
        name: Text::from_str(alloc, name)?,
        args: Seq::new(alloc),
        body: Seq::new(alloc),
        line,
    })
}

fn stands_at(names: &[StepName], at: usize, name: &str, line: u32) -> bool {
    match names.get(at) {
        Some(step) => step.line == line && step.name.is(name),
        None => false,
    }
}

#[test]
fn steps_stand_in_the_order_of_the_chain(rt: HostRuntime) -> Result<(), Fail> {
    let alloc = rt.alloc();
    let mut directives = Seq::new(alloc);
    directives.push(directive(alloc, "whoami", 2)?)?;
    directives.push(directive(alloc, "acl", 3)?)?;
    directives.push(directive(alloc, "acl", 4)?)?;
    directives.push(directive(alloc, "errors", 5)?)?;
    let names = step_names(alloc, directives.as_slice())?;
    assert_eq!(rt; names.len(), 3);
    assert!(rt; stands_at(names.as_slice(), 0, "errors", 5));
    assert!(rt; stands_at(names.as_slice(), 1, "acl", 3));
    assert!(rt; stands_at(names.as_slice(), 2, "whoami", 2));
    Ok(())
}

fn name(alloc: Global, text: &[u8]) -> Result<Name, NoMemory> {
    match Name::read(alloc, text, &Name::root(alloc)) {
        Ok(name) => Ok(name),
        Err(_) => Err(NoMemory),
    }
}

fn key(alloc: Global, zone: &[u8], line: u32) -> Result<BlockKey, NoMemory> {
    Ok(BlockKey {
        zone: name(alloc, zone)?,
        port: 53,
        line,
    })
}

#[test]
fn the_line_is_that_of_the_key_with_the_longest_zone(rt: HostRuntime) -> Result<(), Fail> {
    let alloc = rt.alloc();
    let mut block = Block {
        keys: Seq::new(alloc),
        directives: Seq::new(alloc),
    };
    block.keys.push(key(alloc, b"org", 1)?)?;
    block.keys.push(key(alloc, b"example.org", 2)?)?;
    let mut blocks = Seq::new(alloc);
    blocks.push(block)?;
    let asked = name(alloc, b"www.Example.org")?;
    assert_eq!(rt; picked_line(&blocks, 53, &asked), Some(2));
    assert_eq!(rt; picked_line(&blocks, 54, &asked), None);
    Ok(())
}
