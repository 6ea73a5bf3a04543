//! A call, without the place that it was made from.
ghost use Rattle.std.specs.Prelude.{◌≡◌, ◌≢◌};
ghost use Rattle.leak_mtrace.specs.Decided.{Decides};
ghost use Rattle.leak_mtrace.specs.Line.{IsBody, IsCall, sign_of};

use crate::line::Kind;
use crate::number::{address, address_and_size};

/// What a call did, at which address and for which size.
#[derive(Clone, Copy)]
pub struct Call {
    pub kind: Kind,
    pub addr: u64,
    pub size: u64,
}

/// What a sign says.
fn kind_of(sign: u8) -> Option<Kind>
    ensures { Decides (λ kind. (sign ≡ sign_of kind) × (kind ≢ Kind.Remark)) result }
{
    match sign {
        b'+' => Some(Kind::Alloc),
        b'-' => Some(Kind::Free),
        b'<' => Some(Kind::MoveOut),
        b'>' => Some(Kind::MoveIn),
        b'!' => Some(Kind::Failed),
        _ => None,
    }
}

/// The address and the size after a sign.
fn body(kind: Kind, text: &[u8]) -> Option<(u64, u64)>
    ensures { Decides (λ p. IsBody kind text.now p.0 p.1) result }
{
    match kind {
        Kind::Alloc | Kind::MoveIn | Kind::Failed => address_and_size(text),
        Kind::Free | Kind::MoveOut => Some((address(text)?, 0)),
        Kind::Remark => None,
    }
}

/// Reads a call: a sign, a space, and what the sign asks for.
#[inline(always)]
pub fn read_call(text: &[u8]) -> Option<Call>
    ensures { Decides (λ call. IsCall call.kind text.now call.addr call.size) result }
{
    let [sign, b' ', rest @ ..] = text else {
        return None;
    };
    let kind = kind_of(*sign)?;
    let (addr, size) = body(kind, rest)?;
    Some(Call { kind, addr, size })
}
