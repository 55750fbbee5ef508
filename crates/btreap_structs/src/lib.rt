// The answers of the calls as the structs of `include/btreap.h`: the number of a refusal, zero where there is none, and the other
// numbers, zero where there is one.
#![tactic(auto)]

ghost use Rattle.std.specs.Prelude.{◌≡◌, Some, Ok, pos};
ghost use Rattle.call_replies.specs.Replies.{number_of, done_of, ranked_of, looked_up_of, correction_of, sized_of, stepped_of, pointed_of, rest_of};
ghost use Rattle.btreap_structs.specs.Structs.{ranked, found, none_found, sized, stepped, mark_after, pointed, no_points};

use call_replies::Refusal;
use paris_points::Size;
use table_descend::{Looked, Standing};

// `btreap_ranked`.
#[repr(C)]
#[derive(Clone, Copy)]
pub struct RankedReply {
    pub refusal: u64,
    pub rank: u64,
}

// `btreap_found`; `held` is one or zero. The correction, last, has a sign.
#[repr(C)]
#[derive(Clone, Copy)]
pub struct FoundReply {
    pub refusal: u64,
    pub held: u64,
    pub rank: u64,
    pub count: u64,
    pub leader: u64,
    pub blocks: u64,
    pub length: u64,
    pub correction: i64,
}

// `btreap_sized`.
#[repr(C)]
#[derive(Clone, Copy)]
pub struct SizedReply {
    pub refusal: u64,
    pub size: u64,
}

// `btreap_stepped`; `found` is one or zero.
#[repr(C)]
#[derive(Clone, Copy)]
pub struct SteppedReply {
    pub refusal: u64,
    pub found: u64,
    pub key: u64,
    pub next: u64,
    pub high: u64,
    pub done: u64,
}

// `btreap_pointed`; `measured` is one or zero. The rest, last, has a sign.
#[repr(C)]
#[derive(Clone, Copy)]
pub struct PointedReply {
    pub refusal: u64,
    pub measured: u64,
    pub half_points: u64,
    pub rest: i64,
}

// The number of a refusal, zero where there is none.
pub fn done(answer: Result<(), Refusal>) -> u64
    ensures { result ≡ (done_of answer).refusal }
{
    match answer {
        Ok(()) => 0,
        Err(reason) => reason.number(),
    }
}

// The reply with a rank, and that of a refusal.
impl From<Result<u64, Refusal>> for RankedReply {
    ghost from_gives = { λ answer reply. ranked reply ≡ ranked_of answer };

    fn from(answer: Result<u64, Refusal>) -> RankedReply {
        match answer {
            Ok(rank) => RankedReply { refusal: 0, rank },
            Err(reason) => RankedReply {
                refusal: reason.number(),
                rank: 0,
            },
        }
    }
}

// The reply of a call that was refused, and gives a size where it is not.
fn no_size(reason: Refusal) -> SizedReply
    ensures { (result.refusal ≡ number_of reason) × (result.size ≡ 0) }
{
    SizedReply {
        refusal: reason.number(),
        size: 0,
    }
}

// The reply with a size, and that of a refusal.
impl From<Result<usize, Refusal>> for SizedReply {
    ghost from_gives = { λ answer reply. sized reply ≡ sized_of answer };

    fn from(answer: Result<usize, Refusal>) -> SizedReply {
        match answer {
            Ok(size) => SizedReply {
                refusal: 0,
                size: size as u64,
            },
            Err(reason) => no_size(reason),
        }
    }
}

// The reply of a lookup that found the key, and of one that did not or was refused.
fn found_given(standing: Standing, blocks: usize) -> FoundReply
    ensures { (found result ≡ looked_up_of (Ok (record { standing = Some standing; blocks = blocks }))) × (result.correction ≡ standing.correction) }
{
    FoundReply {
        refusal: 0,
        held: 1,
        rank: standing.rank,
        count: standing.count,
        leader: standing.leader,
        blocks: blocks as u64,
        length: standing.length,
        correction: standing.correction,
    }
}

fn none_found(refusal: u64, blocks: usize) -> FoundReply
    ensures { (found result ≡ none_found refusal blocks) × (result.correction ≡ pos 0) }
{
    FoundReply {
        refusal,
        held: 0,
        rank: 0,
        count: 0,
        leader: 0,
        blocks: blocks as u64,
        length: 0,
        correction: 0,
    }
}

impl From<Result<Looked, Refusal>> for FoundReply {
    ghost from_gives = { λ answer reply. (found reply ≡ looked_up_of answer) × (reply.correction ≡ correction_of answer) };

    fn from(answer: Result<Looked, Refusal>) -> FoundReply {
        match answer {
            Ok(looked) => match looked.standing {
                Some(standing) => found_given(standing, looked.blocks),
                None => none_found(0, looked.blocks),
            },
            Err(reason) => none_found(reason.number(), 0),
        }
    }
}

// The done mark after a step that was handed `before`: one that was set stays as it was.
pub fn mark_after(before: u64, done: bool) -> u64
    ensures { result ≡ mark_after before done }
{
    if !done {
        return 0;
    }
    if before != 0 {
        return before;
    }
    1
}

// The reply of a step, with the place after it.
pub fn stepped(
    answer: Result<Option<u64>, Refusal>,
    next: u64,
    high: u64,
    done: u64,
) -> SteppedReply
    ensures reply_value { stepped result ≡ stepped_of answer }
    ensures next_value { (result.next ≡ next) × (result.high ≡ high) × (result.done ≡ done) }
{
    let end = SteppedReply {
        refusal: 0,
        found: 0,
        key: 0,
        next,
        high,
        done,
    };
    match answer {
        Ok(Some(key)) => SteppedReply {
            found: 1,
            key,
            ..end
        },
        Ok(None) => end,
        Err(reason) => SteppedReply {
            refusal: reason.number(),
            ..end
        },
    }
}

// The reply for a measure that has a size, and for one that has none: it is not measured, or it was refused.
fn size_given(size: Size) -> PointedReply
    ensures { (pointed result ≡ pointed_of (Ok (Some size))) × (result.rest ≡ size.rest) }
{
    PointedReply {
        refusal: 0,
        measured: 1,
        half_points: size.half_points,
        rest: size.rest,
    }
}

fn no_points(refusal: u64) -> PointedReply
    ensures { (pointed result ≡ no_points refusal) × (result.rest ≡ pos 0) }
{
    PointedReply {
        refusal,
        measured: 0,
        half_points: 0,
        rest: 0,
    }
}

impl From<Result<Option<Size>, Refusal>> for PointedReply {
    ghost from_gives = { λ answer reply. (pointed reply ≡ pointed_of answer) × (reply.rest ≡ rest_of answer) };

    fn from(answer: Result<Option<Size>, Refusal>) -> PointedReply {
        match answer {
            Ok(Some(size)) => size_given(size),
            Ok(None) => no_points(0),
            Err(reason) => no_points(reason.number()),
        }
    }
}
