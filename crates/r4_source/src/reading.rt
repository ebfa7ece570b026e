//! The text that a source gives.

ghost use Rattle.std.specs.Prelude.{length};
ghost use Rattle.r4_source.specs.Reading.{AddsPiece, Reads};

use r4_base::Memory;
use r4_outside::Source;
use std::alloc::Global;

/// How many bytes are read of a source: one more than a text may have, so that a text that is too
/// long is seen to be (docs/scripts.md, "The text").
const MOST: usize = 16_777_217;

/// How many bytes one call of the source is asked for.
const PIECE: usize = 65536;

/// Why no text was read.
#[derive(Clone, Copy, Debug, PartialEq, Eq)]
pub enum ReadFault {
    /// The source failed; its count of failed calls then.
    Source { faults: u64 },
    /// No memory was found for the text.
    Memory,
}

impl From<Memory> for ReadFault {
    ghost use Rattle.std.specs.Prelude.{◌≡◌};
    ghost use Rattle.r4_source.specs.declared.reading.ReadFault.TheVariants.{Memory as NoMemory};

    ghost from_gives = { λ _ e. e ≡ NoMemory };

    fn from(_none: Memory) -> ReadFault {
        ReadFault::Memory
    }
}

/// The text of the scripts: all bytes that the source has, or, where these are more than a text may
/// have, the first 16,777,217 of them. From that `parse` of the crate `r4_script` reads the job, or
/// the fault, that it would read from all (docs/scripts.md, "The text"). No text has more bytes,
/// also where the source does not tell its own.
///
/// The source is read in pieces of up to 65,536 bytes, up to the first call that gives none, and not
/// beyond the last byte that is answered. One piece is held beside the text, whose room grows as
/// that of each `Vec` does. `Source` comes only where the source's count of failed calls rose in
/// this call, and no call comes behind the one that failed; `Memory` only where no memory was found
/// for the text or the piece. What was read is lost then.
pub fn read_text<S: Source>(alloc: Global, source: &mut S) -> Result<Vec<u8>, ReadFault>
    ensures { Reads (S.state source.old) result (S.state source.new) }
{
    let mut piece = vec![in alloc; 0u8; PIECE]?;
    let mut text = Vec::new(alloc);
    'pieces: while text.len() < MOST {
        let room = PIECE.min(MOST - text.len());
        if add_piece(source, &mut piece[..room], &mut text)? == 0 {
            break;
        }
    }
    Ok(text)
}

// Reads once into the piece, and puts what came behind the text. It answers how many bytes came.
fn add_piece<S: Source>(
    source: &mut S,
    piece: &mut [u8],
    text: &mut Vec<u8>,
) -> Result<usize, ReadFault>
    ensures { AddsPiece (length piece.old) text.old.items (S.state source.old)
        result text.new.items (S.state source.new) }
{
    let Ok(count) = source.read(piece) else {
        return Err(ReadFault::Source {
            faults: source.faults(),
        });
    };
    text.extend_from_slice(&piece[..count])?;
    Ok(count)
}
