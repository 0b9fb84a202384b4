//! Numbers of 8 bytes, and bytes after their length.

ghost use Rattle.std.specs.Prelude.{◌≡◌, ◌++◌, OnOk, OnErr};
ghost use Rattle.std.specs.Int.{w64};
ghost use Rattle.mal_freeze.specs.Spelling.{spelled};
ghost use Rattle.spec_parcel.specs.Packed.{sized};
ghost use Rattle.mal_parcel.specs.Taking.{Takes, front_at, number_at, sized_at};

use std::alloc::AllocError;

/// Puts a number of 8 bytes after the others. Where memory is refused nothing is put.
#[tactic(auto, unfolding(mal_freeze::specs::Spelling::spelled))]
pub fn put_number(out: &mut Vec<u8>, number: u64) -> Result<(), AllocError>
    ensures spelled { OnOk result (out.new.items ≡ out.old.items ++ spelled w64 number) }
    ensures unchanged { OnErr result (out.new.items ≡ out.old.items) }
{
    out.extend_from_slice(&number.to_be_bytes())
}

/// Puts a length after the others. Where memory is refused nothing is put.
pub fn put_length(out: &mut Vec<u8>, length: usize) -> Result<(), AllocError>
    ensures spelled { OnOk result (out.new.items ≡ out.old.items ++ spelled w64 length) }
    ensures unchanged { OnErr result (out.new.items ≡ out.old.items) }
{
    put_number(out, length as u64)
}

/// Puts bytes and before them their length after the others. Where memory is refused nothing is put.
#[tactic(auto, unfolding(mal_freeze::specs::Spelling::spelled))]
pub fn put_sized(out: &mut Vec<u8>, bytes: &[u8]) -> Result<(), AllocError>
    ensures sized { OnOk result (out.new.items ≡ out.old.items ++ sized bytes.now) }
    ensures unchanged { OnErr result (out.new.items ≡ out.old.items) }
{
    out.reserve(bytes.len() + 8)?;
    out.extend_from_slice(&(bytes.len() as u64).to_be_bytes())?;
    out.extend_from_slice(bytes)?;
    Ok(())
}

/// The number of the 8 bytes at the front, and what stands after it. None where there are fewer.
pub fn take_number(bytes: &[u8]) -> Option<(u64, &[u8])>
    ensures { Takes (λ x. (x.0, x.1.now)) result (number_at bytes.now) }
{
    if bytes.len() < 8 {
        return None;
    }
    let (front, rest) = bytes.split_at(8);
    let number = u64::from_be_bytes([
        front[0], front[1], front[2], front[3], front[4], front[5], front[6], front[7],
    ]);
    Some((number, rest))
}

/// The bytes at the front that stand after their length, and what stands after them. None where there are fewer.
pub fn take_sized(bytes: &[u8]) -> Option<(&[u8], &[u8])>
    ensures { Takes (λ x. (x.0.now, x.1.now)) result (sized_at bytes.now) }
{
    let (length, rest) = take_number(bytes)?;
    front_at(length, rest)
}

/// So many bytes at the front, and what stands after them. None where there are fewer.
fn front_at(length: u64, bytes: &[u8]) -> Option<(&[u8], &[u8])>
    ensures { Takes (λ x. (x.0.now, x.1.now)) result (front_at length bytes.now) }
{
    if (bytes.len() as u64) < length {
        return None;
    }
    Some(bytes.split_at(length as usize))
}
