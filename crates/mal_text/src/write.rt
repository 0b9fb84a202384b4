//! Writing lines of words after what a text has already.
ghost use Rattle.std.specs.Prelude.{◌≡◌, [], ◌∷◌, ◌++◌, map, take, vec_len, OnOk, OnErr};
ghost use Rattle.std.specs.Fmt.{signed_decimal};
ghost use Rattle.spec_text.specs.{Lines.{line_of}, Numbers.{decimal_word}};

use itoa::Buffer;
use std::alloc::AllocError;

/// Writes a number in decimal, without a leading zero or plus sign. Where memory is refused nothing is written.
pub fn put_number(out: &mut Vec<u8>, n: i64) -> Result<(), AllocError>
    ensures written { OnOk result (out.new.items ≡ out.old.items ++ signed_decimal n) }
    ensures unchanged { OnErr result (out.new.items ≡ out.old.items) }
{
    out.extend_from_slice(Buffer::new().format(n).as_bytes())?;
    Ok(())
}

/// Writes a space and then a word. Where memory is refused nothing is written.
pub fn put_word(out: &mut Vec<u8>, word: &[u8]) -> Result<(), AllocError>
    ensures written { OnOk result (out.new.items ≡ out.old.items ++ 32 ∷ word.now) }
    ensures unchanged { OnErr result (out.new.items ≡ out.old.items) }
{
    out.reserve(word.len() + 1)?;
    out.push_reserved(b' ');
    out.extend_from_slice(word)?;
    Ok(())
}

/// Writes a space and then a number in decimal, without a leading zero. Where memory is refused nothing is written.
pub fn put_decimal(out: &mut Vec<u8>, n: u64) -> Result<(), AllocError>
    ensures written { OnOk result (out.new.items ≡ out.old.items ++ 32 ∷ decimal_word n) }
    ensures unchanged { OnErr result (out.new.items ≡ out.old.items) }
{
    put_word(out, Buffer::new().format(n).as_bytes())?;
    Ok(())
}

/// Ends a line. Where memory is refused nothing is written.
pub fn end_line(out: &mut Vec<u8>) -> Result<(), AllocError>
    ensures written { OnOk result (out.new.items ≡ out.old.items ++ 10 ∷ []) }
    ensures unchanged { OnErr result (out.new.items ≡ out.old.items) }
{
    out.push(b'\n')?;
    Ok(())
}

/// Writes a line of the words `first` and `others`. Where memory is refused nothing is written.
pub fn put_line(out: &mut Vec<u8>, first: &[u8], others: &[&[u8]]) -> Result<(), AllocError>
    ensures written { OnOk result (out.new.items ≡ out.old.items ++ line_of (first.now ∷ map (λ w. w.now) others.now)) }
    ensures unchanged { OnErr result (out.new.items ≡ out.old.items) }
{
    let start = out.len();
    match append_line(out, first, others) {
        Ok(()) => Ok(()),
        Err(error) => {
            out.truncate(start);
            Err(error)
        }
    }
}

/// Writes a line, or, where memory is refused, the beginning of one.
fn append_line(out: &mut Vec<u8>, first: &[u8], others: &[&[u8]]) -> Result<(), AllocError>
    ensures written { OnOk result (out.new.items ≡ out.old.items ++ line_of (first.now ∷ map (λ w. w.now) others.now)) }
    ensures kept { take (vec_len out.old) out.new.items ≡ out.old.items }
{
    out.extend_from_slice(first)?;
    for word in others {
        put_word(out, word)?;
    }
    end_line(out)?;
    Ok(())
}
