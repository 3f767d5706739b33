//! Reading a bounded text.

ghost use Rattle.std.specs.Prelude.{◌≡◌, ◌<◌, ◌≤◌, IfErr, IfOk, IfSome, take, vec_len, length};
ghost use Rattle.rcuo_script.specs.Reading.{IsFailedRead, TakesAtMost, TakesPiece};

use crate::fault::Fault;
use std::alloc::Global;
use std::io::Read;

fn zeros(alloc: Global, len: usize) -> Result<Vec<u8>, Fault>
    ensures len { IfOk result (λ v. vec_len v ≡ len) }
    ensures err { IfErr result IsFailedRead }
{
    Ok(vec![in alloc; 0u8; len]?)
}

/// The bytes that a reader has left, up to the first `most`, taken `piece` bytes at a time.
pub fn read_text<R: Read>(
    alloc: Global,
    reader: &mut R,
    most: usize,
    piece: usize,
) -> Result<Vec<u8>, Fault>
    requires { 0 < piece }
    ensures short { IfOk result (λ v. vec_len v ≤ most) }
    ensures whole { IfOk result (λ v.
        IfSome (R.remaining reader.old) (λ bytes. v.items ≡ take most bytes)) }
    ensures most { TakesAtMost most (R.remaining reader.old) (R.remaining reader.new) }
    ensures err { IfErr result IsFailedRead }
{
    let mut buffer = zeros(alloc, piece)?;
    let mut text = Vec::new(alloc);
    while text.len() < most {
        let wanted = piece.min(most - text.len());
        if !read_piece(reader, &mut text, &mut buffer[..wanted])? {
            break;
        }
    }
    Ok(text)
}

/// One read, whose bytes are added to the text. It answers whether any came.
fn read_piece<R: Read>(reader: &mut R, text: &mut Vec<u8>, buffer: &mut [u8]) -> Result<bool, Fault>
    requires { 0 < length buffer.old }
    ensures piece { TakesPiece (R.remaining reader.old) (R.remaining reader.new) text.old.items
        text.new.items (length buffer.old) result }
    ensures err { IfErr result IsFailedRead }
{
    match reader.read(buffer) {
        Ok(0) => Ok(false),
        Ok(n) => {
            text.extend_from_slice(&buffer[..n])?;
            Ok(true)
        }
        Err(_) => Err(Fault::CannotRead),
    }
}
