ghost use Rattle.std.specs.Prelude.{◌≡◌, ◌<◌, ◌≤◌, ℕ, List};
ghost use Rattle.hash_index.specs.Pairs.{Pair};
ghost use Rattle.hash_index.specs.Calls.{CanAsk, Gives, AnswersAreAlike, FitsRequest};

use crate::traits::{Digests, Index};

/// A call of an index.
#[derive(Clone, Copy, Debug)]
pub enum Request {
    /// The least known id above `after` with the digest.
    Find { digest: [u8; 32], after: u64 },
    /// One more pair.
    Insert { digest: [u8; 32], id: u64 },
    /// No pairs any more.
    Clear,
}

/// What an index answers to a call.
#[derive(Clone, Copy, Debug)]
pub enum Answer {
    /// To a find.
    Found(Option<u64>),
    /// To an insert.
    Inserted,
    /// To an insert for which there was no memory.
    Refused,
    /// To a clear.
    Cleared,
}

/// Makes the call.
pub fn ask<I: Index, T: Digests>(index: &mut I, request: &Request, tells: &T) -> Answer
    requires { FitsRequest request.now }
    ensures { (pairs : List Pair) → I.stands_for index.old pairs → CanAsk pairs (T.digest_of tells.now) request.now
        → (next : List Pair) × Gives pairs (T.digest_of tells.now) request.now result next
        × I.stands_for index.new next }
{
    match *request {
        Request::Find { digest, after } => Answer::Found(index.find(&digest, after, tells)),
        Request::Insert { digest, id } => match index.insert(&digest, id, tells) {
            Ok(()) => Answer::Inserted,
            Err(_) => Answer::Refused,
        },
        Request::Clear => {
            index.clear();
            Answer::Cleared
        }
    }
}

/// Any two indexes that hold nothing answer a list of calls alike, as an [`OrderedIndex`](crate::OrderedIndex) and a
/// [`CompactIndex`](crate::CompactIndex) do: what one call may answer is what [`ask`] promises of each index. It is a
/// condition that a held id that is not known at one call is not known at a later one, up to the next clear, since an
/// index may have dropped it. Want of memory is the one answer that is free, so the two lists of answers have the same
/// refused inserts.
pub fn answers_are_alike()
    ensures { AnswersAreAlike }
{}
