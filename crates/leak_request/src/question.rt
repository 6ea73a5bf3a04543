//! What is asked about some blocks.

ghost use Rattle.std.specs.Prelude.{◌≡◌, IfErr, IfOk};
ghost use Rattle.leak_request.specs.FoundRows.{found_rows};
ghost use Rattle.leak_request.specs.Questions.{IsAskedBy, IsBadFor, IsQuestionAt, IsQuestionFault, argument_of};

use crate::address::address;
use crate::fault::{AddressArgument, UsageFault};
use crate::found_values::{is_given, value};
use clap::ArgMatches;
use leak_holders::{Question, Side};

/// The question about some blocks, if there is one, from what clap found.
pub(crate) fn question(found: &ArgMatches) -> Result<Option<Question>, UsageFault>
    ensures ok { IfOk result (IsQuestionAt (found_rows found.now)) }
    ensures refused { IfErr result (IsQuestionFault (found_rows found.now)) }
{
    let alone = is_given(found, "block");
    match (value(found, "in"), value(found, "of")) {
        (Some(_), Some(_)) => Err(UsageFault::Sides),
        (Some(word), None) => Ok(Some(asked(word, Side::In, alone)?)),
        (None, Some(word)) => Ok(Some(asked(word, Side::Of, alone)?)),
        (None, None) if alone => Err(UsageFault::Block),
        (None, None) => Ok(None),
    }
}

/// The question by the text of its address.
fn asked(text: &str, side: Side, alone: bool) -> Result<Question, UsageFault>
    ensures ok { IfOk result (IsAskedBy text.now side alone) }
    ensures refused { IfErr result (IsBadFor text.now side) }
{
    match address(text.as_bytes()) {
        Some(address) => Ok(Question {
            address,
            side,
            alone,
        }),
        None => Err(UsageFault::Address(argument_of(side))),
    }
}

/// The option that asks for the side.
fn argument_of(side: Side) -> AddressArgument
    ensures { result ≡ argument_of side }
{
    match side {
        Side::In => AddressArgument::In,
        Side::Of => AddressArgument::Of,
    }
}
