// Reading the body of a sync that was cut short.
ghost use Rattle.tw_bodies.specs.Views.{IsRead};
ghost use Rattle.tw_bodies.specs.Reading.{op_at, all_ops_of, partial_of};
ghost use Rattle.tw_fields.specs.Reading.{Gives, counted_at};

use crate::op::read_ops;
use crate::step::Read;
use std::alloc::Global;
use tw_fields::{ReadError, read_uuid, u32_at};
use tw_model::Op;

#[tactic(auto, unfolding(tw_fields::specs::Reading::counted_at))]
fn counted_ops(alloc: Global, bytes: &[u8]) -> Result<(Vec<Op>, &[u8]), ReadError>
    ensures { Gives (λ x. (x.0.items, x.1.now)) result (counted_at op_at bytes.now) }
{
    let (count, rest) = u32_at(bytes)?;
    read_ops(alloc, count, rest)
}

/// Operations after their number, which end with the bytes.
#[tactic(auto, unfolding(crate::specs::Reading::all_ops_of))]
pub fn read_all_ops(alloc: Global, bytes: &[u8]) -> Result<Vec<Op>, ReadError>
    ensures { Gives (λ ops. ops.items) result (all_ops_of bytes.now) }
{
    let (ops, rest) = counted_ops(alloc, bytes)?;
    if rest.len() == 0 {
        Ok(ops)
    } else {
        Err(ReadError::Malformed)
    }
}

/// What a sync brought that was cut short, of the body after its first byte. Neither the operations nor what is pending is read yet.
#[tactic(auto, unfolding(crate::specs::Reading::partial_of))]
pub(crate) fn read_partial(bytes: &[u8]) -> Result<Read<'_>, ReadError>
    ensures { IsRead result (partial_of bytes.now) }
{
    let (base, rest) = read_uuid(bytes)?;
    let (count, ops) = u32_at(rest)?;
    Ok(Read::Partial { base, count, ops })
}
