//! The bytes of a name in wire format, which stand in the value itself where it is short.
ghost use Rattle.std.specs.Prelude.{◌≡◌, ◌+◌, ◌≤◌, [], ◌∷◌, ◌++◌, length, map, IfOk, IsOk, OnOk};
ghost use Rattle.std.specs.Prelude.{OnErr, IsTrue, IsFalse};
ghost use Rattle.std.specs.Char.{to_ascii_lowercase};

use crate::NoMemory;
use crate::short::Short;
use std::alloc::Global;
use std::marker::Model;
use std::mem::size_of;

const _: () = prove!(size_of::<Wire>() == 40);

/// Bytes, of which up to 38 take no memory. Contracts see them alone.
#[derive(Debug, Drop)]
pub struct Wire {
    form: Form,
}

#[derive(Debug, Drop)]
enum Form {
    Few(Short),
    Many(Vec<u8>),
}

impl Model for Wire {
    ghost use Rattle.std.specs.Prelude.{ℕ, List};
    ghost use Rattle.dns_lists.specs.Wire.{bytes_of};

    ghost Value = { List ℕ };

    ghost view = { λ w. bytes_of w.form };
}

impl Wire {
    /// No bytes.
    #[inline]
    pub fn new(alloc: Global) -> Wire
        ensures { result ≡ [] }
    {
        Wire {
            form: Form::Few(Short::new(alloc)),
        }
    }

    /// No bytes, with room for so many.
    pub fn with_capacity(alloc: Global, bytes: usize) -> Result<Wire, NoMemory>
        ensures value { IfOk result (λ wire. wire ≡ []) }
        ensures succeeds { bytes ≤ 38 → IsOk result }
    {
        let short = Short::new(alloc);
        if short.has_room(bytes) {
            return Ok(Wire {
                form: Form::Few(short),
            });
        }
        Ok(Wire {
            form: Form::Many(Vec::with_capacity(alloc, bytes)?),
        })
    }

    /// A copy of bytes.
    #[inline]
    pub fn from_slice(alloc: Global, bytes: &[u8]) -> Result<Wire, NoMemory>
        ensures value { IfOk result (λ wire. wire ≡ bytes.now) }
        ensures succeeds { length bytes.now ≤ 38 → IsOk result }
    {
        let mut short = Short::new(alloc);
        if short.has_room(bytes.len()) {
            short.push(bytes);
            return Ok(Wire {
                form: Form::Few(short),
            });
        }
        Ok(Wire {
            form: Form::Many(Vec::from_slice(alloc, bytes)?),
        })
    }

    /// A label behind its length, and bytes behind it.
    #[inline]
    pub fn with_label(alloc: Global, label: &[u8], rest: &[u8]) -> Result<Wire, NoMemory>
        requires { length label.now ≤ 63 }
        ensures value { IfOk result (λ wire. wire ≡ (length label.now ∷ label.now) ++ rest.now) }
        ensures succeeds { length label.now + 1 + length rest.now ≤ 38 → IsOk result }
    {
        let size = label.len() as u8;
        let mut short = Short::new(alloc);
        if short.has_room(label.len() + 1 + rest.len()) {
            short.push(&[size]);
            short.push(label);
            short.push(rest);
            return Ok(Wire {
                form: Form::Few(short),
            });
        }
        Ok(Wire {
            form: Form::Many(labelled(alloc, label, rest)?),
        })
    }

    /// How many bytes.
    #[inline]
    pub fn len(&self) -> usize
        ensures { result ≡ length self.now }
    {
        match &self.form {
            Form::Few(short) => short.len(),
            Form::Many(long) => long.len(),
        }
    }

    /// The bytes.
    #[inline]
    pub fn as_slice(&self) -> &[u8]
        ensures { result.now ≡ self.now }
    {
        match &self.form {
            Form::Few(short) => short.as_slice(),
            Form::Many(long) => long.as_slice(),
        }
    }

    /// The same bytes.
    #[inline]
    pub fn copy(&self, alloc: Global) -> Result<Wire, NoMemory>
        ensures value { IfOk result (λ wire. wire ≡ self.now) }
        ensures succeeds { length self.now ≤ 38 → IsOk result }
    {
        match &self.form {
            Form::Few(short) => Ok(Wire {
                form: Form::Few(short.copy()),
            }),
            Form::Many(long) => Wire::from_slice(alloc, long),
        }
    }

    /// Adds bytes at the end.
    pub fn extend(&mut self, more: &[u8]) -> Result<(), NoMemory>
        ensures ok { OnOk result (self.new ≡ self.old ++ more.now) }
        ensures err { OnErr result (self.new ≡ self.old) }
    {
        match &mut self.form {
            Form::Few(short) => {
                if short.has_room(more.len()) {
                    short.push(more);
                    return Ok(());
                }
                self.form = Form::Many(grown(short, more)?);
                Ok(())
            }
            Form::Many(long) => {
                long.extend_from_slice(more)?;
                Ok(())
            }
        }
    }

    /// Adds a label behind its length at the end.
    pub fn push_label(&mut self, label: &[u8]) -> Result<(), NoMemory>
        requires { length label.now ≤ 63 }
        ensures ok { OnOk result (self.new ≡ (self.old ++ length label.now ∷ []) ++ label.now) }
        ensures err { OnErr result (self.new ≡ self.old) }
    {
        let size = label.len() as u8;
        match &mut self.form {
            Form::Few(short) => {
                if short.has_room(label.len() + 1) {
                    short.push(&[size]);
                    short.push(label);
                    return Ok(());
                }
                let mut long = grown(short, &[size])?;
                long.extend_from_slice(label)?;
                self.form = Form::Many(long);
                Ok(())
            }
            Form::Many(long) => {
                long.reserve(label.len() + 1)?;
                long.push(size)?;
                long.extend_from_slice(label)?;
                Ok(())
            }
        }
    }

    /// Becomes a copy of bytes, in the room that is there.
    #[inline]
    pub fn set(&mut self, source: &[u8]) -> Result<(), NoMemory>
        ensures ok { OnOk result (self.new ≡ source.now) }
        ensures err { OnErr result (self.new ≡ self.old) }
    {
        match &mut self.form {
            Form::Few(short) => {
                if Short::fits(source.len()) {
                    short.clear();
                    short.push(source);
                    return Ok(());
                }
                self.form = Form::Many(Vec::from_slice(short.allocator(), source)?);
                Ok(())
            }
            Form::Many(long) => {
                long.reserve(source.len())?;
                long.clear();
                long.extend_from_slice(source)?;
                Ok(())
            }
        }
    }

    /// Becomes a label behind its length, and bytes behind it, in the room that is there.
    #[inline]
    pub fn set_label(&mut self, label: &[u8], rest: &[u8]) -> Result<(), NoMemory>
        requires { length label.now ≤ 63 }
        ensures ok { OnOk result (self.new ≡ (length label.now ∷ label.now) ++ rest.now) }
        ensures err { OnErr result (self.new ≡ self.old) }
    {
        let size = label.len() as u8;
        match &mut self.form {
            Form::Few(short) => {
                if Short::fits(label.len() + 1 + rest.len()) {
                    short.clear();
                    short.push(&[size]);
                    short.push(label);
                    short.push(rest);
                    return Ok(());
                }
                let alloc = short.allocator();
                self.set_label_far(alloc, label, rest)
            }
            Form::Many(long) => {
                long.reserve(label.len() + 1 + rest.len())?;
                long.clear();
                long.push(size)?;
                long.extend_from_slice(label)?;
                long.extend_from_slice(rest)?;
                Ok(())
            }
        }
    }

    // The same, in memory of its own.
    #[cold]
    #[inline(never)]
    fn set_label_far(&mut self, alloc: Global, label: &[u8], rest: &[u8]) -> Result<(), NoMemory>
        requires { length label.now ≤ 63 }
        ensures ok { OnOk result (self.new ≡ (length label.now ∷ label.now) ++ rest.now) }
        ensures err { OnErr result (self.new ≡ self.old) }
    {
        self.form = Form::Many(labelled(alloc, label, rest)?);
        Ok(())
    }

    /// Becomes a copy of another, where both stand in their values. Else nothing is done.
    #[inline(always)]
    pub fn set_near(&mut self, other: &Wire) -> bool
        ensures done { IsTrue result → self.new ≡ other.now }
        ensures not { IsFalse result → self.new ≡ self.old }
    {
        if let (Form::Few(short), Form::Few(source)) = (&mut self.form, &other.form) {
            short.set_to(source);
            return true;
        }
        false
    }

    /// Two become copies of two others, where all four stand in their values. Else nothing is done.
    #[inline(always)]
    pub fn set_two_near(first: &mut Wire, second: &mut Wire, source: &Wire, other: &Wire) -> bool
        ensures done { IsTrue result → (first.new ≡ source.now) × (second.new ≡ other.now) }
        ensures not { IsFalse result → (first.new ≡ first.old) × (second.new ≡ second.old) }
    {
        if let (Form::Few(one), Form::Few(two), Form::Few(source), Form::Few(other)) = (
            &mut first.form,
            &mut second.form,
            &source.form,
            &other.form,
        ) {
            one.set_to(source);
            two.set_to(other);
            return true;
        }
        false
    }

    /// Drops all bytes, and keeps the room.
    #[inline]
    pub fn clear(&mut self)
        ensures { self.new ≡ [] }
    {
        match &mut self.form {
            Form::Few(short) => short.clear(),
            Form::Many(long) => long.clear(),
        }
    }

    /// Makes every ASCII capital small.
    pub fn make_lower(&mut self)
        ensures { self.new ≡ map to_ascii_lowercase self.old }
    {
        match &mut self.form {
            Form::Few(short) => short.make_lower(),
            Form::Many(long) => long.make_ascii_lowercase(),
        }
    }
}

// A label behind its length, and bytes behind it, in an allocation.
#[cold]
#[inline(never)]
fn labelled(alloc: Global, label: &[u8], rest: &[u8]) -> Result<Vec<u8>, NoMemory>
    requires { length label.now ≤ 63 }
    ensures { IfOk result (λ all. all.items ≡ (length label.now ∷ label.now) ++ rest.now) }
{
    let mut all = Vec::with_capacity(alloc, label.len() + 1 + rest.len())?;
    all.push(label.len() as u8)?;
    all.extend_from_slice(label)?;
    all.extend_from_slice(rest)?;
    Ok(all)
}

// Bytes and more of them, in an allocation.
#[cold]
#[inline(never)]
fn grown(short: &Short, more: &[u8]) -> Result<Vec<u8>, NoMemory>
    ensures { IfOk result (λ all. all.items ≡ short.now ++ more.now) }
{
    if short.len() == 0 {
        return Ok(Vec::from_slice(short.allocator(), more)?);
    }
    let mut all = Vec::with_capacity(short.allocator(), short.len() + more.len())?;
    all.extend_from_slice(short.as_slice())?;
    all.extend_from_slice(more)?;
    Ok(all)
}
