//! Bytes as a table spells them.
ghost use Rattle.std.specs.Prelude.{◌<◌, IfOk};

use crate::misread::Misread;

/// Bytes that have a name.
#[derive(Drop)]
pub struct Part {
    pub name: String,
    pub bytes: Vec<u8>,
}

/// Appends what each piece of the text spells: `=N` a word, `:N` a hyper, the name of a part its bytes, and else
/// pairs of hex digits, with `*N` behind them so many times.
pub fn append(bytes: &mut Vec<u8>, parts: &[Part], text: &str) -> Result<(), Misread> {
    for piece in text.split_whitespace() {
        append_piece(bytes, parts, piece)?;
    }
    Ok(())
}

fn append_piece(bytes: &mut Vec<u8>, parts: &[Part], piece: &str) -> Result<(), Misread> {
    if let Some(digits) = piece.strip_prefix('=') {
        let word = digits.parse::<u32>()?;
        bytes.extend_from_slice(&word.to_be_bytes())?;
        return Ok(());
    }
    if let Some(digits) = piece.strip_prefix(':') {
        let hyper = digits.parse::<u64>()?;
        bytes.extend_from_slice(&hyper.to_be_bytes())?;
        return Ok(());
    }
    for part in parts {
        if part.name.as_str() == piece {
            bytes.extend_from_slice(&part.bytes)?;
            return Ok(());
        }
    }
    append_hex(bytes, piece)
}

fn append_hex(bytes: &mut Vec<u8>, piece: &str) -> Result<(), Misread> {
    let (digits, times) = match piece.split_once('*') {
        Some((digits, times)) => (digits, times.parse::<u32>()?),
        None => (piece, 1),
    };
    for _ in 0..times {
        for pair in digits.as_bytes().chunks(2) {
            bytes.push(byte_of(pair)?)?;
        }
    }
    Ok(())
}

fn byte_of(pair: &[u8]) -> Result<u8, Misread> {
    match pair {
        [high, low] => Ok(digit(*high)? * 16 + digit(*low)?),
        _ => Err(Misread::Bytes),
    }
}

// The number of a digit.
fn digit(byte: u8) -> Result<u8, Misread>
    ensures { IfOk result (λ n. n < 16) }
{
    match byte {
        b'0'..=b'9' => Ok(byte - b'0'),
        b'a'..=b'f' => Ok(byte - b'a' + 10),
        _ => Err(Misread::Bytes),
    }
}
