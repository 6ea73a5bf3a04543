//! Reads one line of the log.
ghost use Rattle.std.specs.Prelude.{◌<◌, ◌+◌, ◌^◌, length};
ghost use Rattle.leak_mtrace.specs.Decided.{Decides};
ghost use Rattle.leak_mtrace.specs.Line.{IsAfterPlace, IsPlain, IsLine};

use crate::call::read_call;
use crate::call_place::place_end;
use crate::line::{Kind, Line};

/// Reads a call after its place, in the line's text after `@ `.
#[inline(always)]
fn placed(text: &[u8]) -> Option<Line>
    requires { length text.now + 2 < 2 ^ 64 }
    ensures { Decides (IsAfterPlace text.now) result }
{
    let end = place_end(text)?;
    if end == 0 {
        return None;
    }
    let rest = text[end..].strip_prefix(b" ".as_slice())?;
    let call = read_call(rest)?;
    Some(Line {
        kind: call.kind,
        addr: call.addr,
        size: call.size,
        caller: (2, 2 + end),
    })
}

/// Reads a call without a place.
fn plain(text: &[u8]) -> Option<Line>
    ensures { Decides (IsPlain text.now) result }
{
    let call = read_call(text)?;
    Some(Line {
        kind: call.kind,
        addr: call.addr,
        size: call.size,
        caller: (0, 0),
    })
}

/// Reads one line, without its line feed. A caller is a range of the line's bytes.
#[inline(always)]
pub fn parse_line(line: &[u8]) -> Option<Line>
    ensures { Decides (IsLine line.now) result }
{
    if line.is_empty() || line[0] == b'=' {
        return Some(Line {
            kind: Kind::Remark,
            addr: 0,
            size: 0,
            caller: (0, 0),
        });
    }
    if let [b'@', b' ', rest @ ..] = line {
        placed(rest)
    } else {
        plain(line)
    }
}
