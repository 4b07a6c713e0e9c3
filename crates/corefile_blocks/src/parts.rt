ghost use Rattle.std.specs.Prelude.{◌≡◌, ◌∷◌, IfOk, OnOk};
ghost use Rattle.corefile_blocks.specs.Blocks.{directive, directive_count, import_name, on_last};
ghost use Rattle.corefile_blocks.specs.Blocks.{texts, with_body_line, with_directive, with_line};

use corefile_words::Word;
use dns_data::{Block, Blocks, Copies, Directive, Directives, Line, NoMemory, Seq, Text, Texts};
use std::alloc::Global;

/// A directive without a body: a name, and the words behind it.
pub(crate) fn directive(alloc: Global, line: u32, words: &[Word]) -> Result<Directive, NoMemory>
    ensures { IfOk result (λ made. made ≡ directive line words.now) }
{
    let Some((name, args)) = words.split_first() else {
        return Ok(Directive {
            name: Text::new(alloc),
            args: Seq::new(alloc),
            body: Seq::new(alloc),
            line,
        });
    };
    Ok(Directive {
        name: name.text.copy(alloc)?,
        args: texts(alloc, args)?,
        body: Seq::new(alloc),
        line,
    })
}

/// The texts of words.
pub(crate) fn texts(alloc: Global, words: &[Word]) -> Result<Texts, NoMemory>
    ensures { IfOk result (λ made. made ≡ texts words.now) }
{
    let mut made = Seq::with_capacity(alloc, words.len())?;
    for word in words {
        made.push(word.text.copy(alloc)?)?;
    }
    Ok(made)
}

/// The text of the second word of an import.
pub(crate) fn import_name(words: &[Word]) -> &str
    ensures { result.now ≡ import_name words.now }
{
    match words.get(1) {
        Some(word) => word.text.as_str(),
        None => "",
    }
}

/// How many directives the last block has.
pub(crate) fn directive_count(blocks: &[Block]) -> usize
    ensures { result ≡ directive_count blocks.now }
{
    match blocks.split_last() {
        Some((block, _)) => block.directives.len(),
        None => 0,
    }
}

/// Adds a directive to the last block.
pub(crate) fn push_directive(blocks: &mut Blocks, directive: Directive) -> Result<(), NoMemory>
    ensures { OnOk result (blocks.new ≡ on_last (with_directive directive) blocks.old) }
{
    let Some(mut block) = blocks.pop() else {
        return Ok(());
    };
    block.directives.push(directive)?;
    blocks.push(block)?;
    Ok(())
}

/// Adds a line to the body of the last directive of the last block.
pub(crate) fn push_body_line(blocks: &mut Blocks, line: Line) -> Result<(), NoMemory>
    ensures { OnOk result (blocks.new ≡ on_last (with_body_line line) blocks.old) }
{
    let Some(mut block) = blocks.pop() else {
        return Ok(());
    };
    push_line(&mut block.directives, line)?;
    blocks.push(block)?;
    Ok(())
}

fn push_line(directives: &mut Directives, line: Line) -> Result<(), NoMemory>
    ensures { OnOk result (directives.new ≡ on_last (with_line line) directives.old) }
{
    let Some(mut directive) = directives.pop() else {
        return Ok(());
    };
    directive.body.push(line)?;
    directives.push(directive)?;
    Ok(())
}
