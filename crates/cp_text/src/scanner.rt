//! From a text to its tokens.

ghost use Rattle.std.specs.Prelude.{◌≡◌, ◌<◌, ◌≤◌, ◌+◌, ◌^◌, ◌≢◌, [], None, length, OnOk, IfErr};
ghost use Rattle.cp_text.specs.Bytes.{line_feeds};
ghost use Rattle.cp_text.specs.Reading.{Reading};
ghost use Rattle.cp_text.specs.Faults.{out_of_memory, Outcome};
ghost use Rattle.cp_text.specs.Scanning as spec;
ghost use Rattle.cp_text.specs.Scanning.{Scans};
ghost use Rattle.cp_text.specs.Spots.{after, beginning};

use crate::fault::{ScanCause, ScanFault};
use crate::front::{Front, front_piece};
use crate::token::{ByteRange, Kind, Spot, Token, Tokens};
use std::alloc::Global;

const MOST_TEXT_BYTES: usize = 65535;

/// The tokens of a text, or its first fault.
///
/// # Errors
/// The causes of [`ScanCause`]. `TooLong` is looked at first.
pub fn scan(alloc: Global, source: &[u8]) -> Result<Tokens, ScanFault>
    ensures reads { result ≢ Err out_of_memory → Reading source.now result }
    ensures only { (other : Outcome) → Reading source.now other → result ≢ Err out_of_memory → result ≡ other }
{
    if source.len() > MOST_TEXT_BYTES {
        return Err(ScanFault {
            line: 0,
            from: 0,
            cause: ScanCause::TooLong,
        });
    }
    pieces(alloc, source)
}

/// Reads piece by piece. `left` is how many bytes stand before the closing of the annotation that the piece is in.
fn pieces(alloc: Global, source: &[u8]) -> Result<Tokens, ScanFault>
    requires { length source.now ≤ 65535 }
    ensures { Scans (spec.scan_from 0 None beginning [] source.now) result }
{
    let mut items = Vec::new(alloc);
    let mut spot = Spot { line: 1, from: 0 };
    let mut rest = source;
    let mut left = None;
    while !rest.is_empty() {
        let found = match front_piece(alloc, items.len(), left, rest) {
            Ok(found) => found,
            Err(cause) => return Err(fault(spot, cause)),
        };
        let Front {
            kind,
            len,
            left: behind,
        } = found;
        let (piece, more) = rest.split_at(len);
        add(&mut items, kind, spot, piece)?;
        left = behind;
        spot = after(spot, piece);
        rest = more;
    }
    Ok(Tokens::new(items))
}

/// Adds a piece as a token of this kind, if it is one.
fn add(
    items: &mut Vec<Token>,
    kind: Option<Kind>,
    spot: Spot,
    piece: &[u8],
) -> Result<(), ScanFault>
    ensures ok { OnOk result (items.new.items ≡ spec.added items.old.items kind spot piece.now) }
    ensures err { IfErr result (λ e. e ≡ out_of_memory) }
{
    if let Some(kind) = kind {
        let range = ByteRange {
            from: spot.from,
            len: piece.len(),
        };
        items.push(Token {
            kind,
            line: spot.line,
            range,
        })?;
    }
    Ok(())
}

/// The fault of the piece that begins there.
fn fault(spot: Spot, cause: ScanCause) -> ScanFault
    ensures { result ≡ spec.fault spot cause }
{
    match cause {
        ScanCause::Memory => ScanFault {
            line: 0,
            from: 0,
            cause,
        },
        _ => ScanFault {
            line: spot.line,
            from: spot.from,
            cause,
        },
    }
}

/// Where the piece that begins there ends.
fn after(spot: Spot, piece: &[u8]) -> Spot
    requires place { spot.from + length piece.now < 2 ^ 16 }
    requires line { spot.line + length piece.now < 2 ^ 17 }
    ensures value { result ≡ after spot piece.now }
    ensures within { result.line ≤ spot.line + length piece.now }
{
    Spot {
        line: spot.line + line_feeds(piece),
        from: spot.from + piece.len(),
    }
}

/// How many line feeds the text has.
fn line_feeds(text: &[u8]) -> u32
    requires { length text.now < 2 ^ 16 }
    ensures value { result ≡ line_feeds text.now }
    ensures within { result ≤ length text.now }
{
    let mut count = 0;
    for b in text {
        if *b == b'\n' {
            count += 1;
        }
    }
    count
}
