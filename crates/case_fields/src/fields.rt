ghost use Rattle.std.specs.Prelude.{◌≡◌, ℕ, List, None, Some, Err, string_bytes, IfOk, IsUtf8};
ghost use Rattle.case_fields.specs.Fields.{field_bytes, field_of};
ghost use Rattle.hex.specs.declared.error.FromHexError.TheVariants as hex;

use crate::fault::CaseFault;
use dns_data::Text;
use hex::FromHexError;
use std::alloc::Global;
use std::str;

/// The bytes of a field, of which `-` has none.
pub fn read_bytes(alloc: Global, field: &str) -> Result<Vec<u8>, CaseFault>
    ensures bytes { IfOk result (λ bytes. field_bytes field.now ≡ Some bytes.items) }
    ensures bad { result ≡ Err CaseFault.Bad → field_bytes field.now ≡ None }
{
    if field == "-" {
        return Ok(Vec::new(alloc));
    }
    if field.is_empty() {
        return Err(CaseFault::Bad);
    }
    match hex::decode(alloc, field) {
        Ok(bytes) => Ok(bytes),
        Err(fault) => Err(fault_of(&fault)),
    }
}

// Digits that spell no bytes are no case; all else is want of memory.
fn fault_of(fault: &FromHexError) -> CaseFault
    ensures { result ≡ CaseFault.Bad → fault.now ≡ hex.OutOfMemory → ⊥ }
{
    match fault {
        FromHexError::OutOfMemory => CaseFault::NoMemory,
        FromHexError::InvalidHexCharacter { c: _, index: _ } => CaseFault::Bad,
        FromHexError::OddLength | FromHexError::InvalidStringLength => CaseFault::Bad,
    }
}

/// The field of bytes.
pub fn bytes_field(alloc: Global, bytes: &[u8]) -> Result<String, CaseFault>
    ensures { IfOk result (λ field. string_bytes field ≡ field_of bytes.now) }
{
    if bytes.is_empty() {
        return Ok(String::from_str(alloc, "-")?);
    }
    Ok(hex::encode(alloc, bytes)?)
}

/// The text of a field.
pub fn read_text(alloc: Global, field: &str) -> Result<Text, CaseFault>
    ensures text { IfOk result (λ text. field_bytes field.now ≡ Some text) }
    ensures bad { result ≡ Err CaseFault.Bad
        → (bytes : List ℕ) → field_bytes field.now ≡ Some bytes → IsUtf8 bytes → ⊥ }
{
    let bytes = read_bytes(alloc, field)?;
    match str::from_utf8(&bytes) {
        Ok(text) => Ok(Text::from_str(alloc, text)?),
        Err(_) => Err(CaseFault::Bad),
    }
}
