//! Replies as bodies of frames.

ghost use Rattle.std.specs.Prelude.{◌≡◌, ℕ, ◌+◌, ◌≤◌, [], ◌∷◌, ◌++◌, length, IfSome, IfNone};
ghost use Rattle.strat_model.specs.Answer.{Answer, as_told};
ghost use Rattle.strat_model.specs.Spelling.{status_byte, flag, parent_bytes, pair_bytes, reply_fields};
ghost use Rattle.strat_model.specs.Spelling.{reply_body, SpellsReply};
ghost use Rattle.strat_model.specs.Stream.{frame};
ghost use Rattle.strat_base.specs.Finds.{Finds};
ghost use Rattle.strat_base.specs.PairBuf.{IsPair};
ghost use Rattle.strat_frame.specs.Fields.{refusal_in, simple_reply, plain_reply_in, reply_value_in, pair_then, pairs_then, listed_then, page_in, answer_in, reply_in};

use crate::buffer::{OutBuf, REPLY_MAX};
use crate::fields::{
    counted_bytes_then, flag_then, parent_then, sole_u32, sole_u64, u8_then, u16_then, u32_then,
};
use strat_base::limits::{PAIRS_MAX, VALUE_MAX};
use strat_base::{PairBuf, key_ok, value_ok};
use strat_model::{Refusal, Reply};

/// The status byte of a refusal.
pub fn refusal_status(refusal: Refusal) -> u8
    ensures { result ≡ status_byte (Reply.Refused refusal) }
{
    match refusal {
        Refusal::UnknownVersion => 16,
        Refusal::Frozen => 17,
        Refusal::UnknownCursor => 18,
        Refusal::VersionLimit => 19,
        Refusal::ChangeLimit => 20,
        Refusal::CursorLimit => 21,
        Refusal::Malformed => 22,
        Refusal::KeySize => 23,
        Refusal::ValueSize => 24,
        Refusal::ScanSize => 25,
        Refusal::FrameTooLong => 26,
        Refusal::Root => 27,
        Refusal::NoMemory => 32,
        Refusal::DeviceFault => 33,
        Refusal::Damaged { .. } => 34,
    }
}

/// The status byte of a reply.
fn reply_status(reply: Reply) -> u8
    ensures { result ≡ status_byte reply }
{
    match reply {
        Reply::Done => 0,
        Reply::Found => 1,
        Reply::Absent => 2,
        Reply::Pairs { .. } => 3,
        Reply::Made { .. } => 4,
        Reply::Info { .. } => 5,
        Reply::Opened { .. } => 6,
        Reply::Stat { .. } => 7,
        Reply::Refused(refusal) => refusal_status(refusal),
    }
}

/// A yes or no in one byte.
fn put_flag(yes: bool, out: &mut OutBuf)
    requires room { length out.old + 1 ≤ REPLY_MAX }
    ensures ok { out.new ≡ out.old ++ flag yes ∷ [] }
    ensures len { length out.new ≡ length out.old + 1 }
{
    if yes { out.put_u8(1) } else { out.put_u8(0) }
}

/// A parent's number, or the greatest number where there is none.
fn put_parent(parent: Option<u32>, out: &mut OutBuf)
    requires room { length out.old + 4 ≤ REPLY_MAX }
    ensures ok { out.new ≡ out.old ++ parent_bytes parent }
    ensures len { length out.new ≡ length out.old + 4 }
{
    match parent {
        None => out.put_u32(u32::MAX),
        Some(parent) => out.put_u32(parent),
    }
}

/// Pairs one after the other.
fn put_pairs(pairs: &PairBuf, out: &mut OutBuf)
    requires room { length out.old + 328448 ≤ REPLY_MAX }
    ensures ok { out.new ≡ out.old ++ pair_bytes pairs.now }
    ensures len { length out.new ≤ length out.old + 328448 }
{
    for i in 0..pairs.len() {
        out.put_counted(pairs.key(i));
        out.put_counted(pairs.value(i));
    }
}

/// The fields of a reply.
fn put_fields(reply: Reply, pairs: &PairBuf, out: &mut OutBuf)
    requires found { reply ≡ Reply.Found → length pairs.now ≡ 1 }
    requires room { length out.old + 328451 ≤ REPLY_MAX }
    ensures ok { out.new ≡ out.old ++ reply_fields reply pairs.now }
    ensures len { length out.new ≤ length out.old + 328451 }
{
    match reply {
        Reply::Found => out.put_counted(pairs.value(0)),
        Reply::Pairs { more } => {
            put_flag(more, out);
            out.put_u16(pairs.len() as u16);
            put_pairs(pairs, out);
        }
        Reply::Made { version } => out.put_u32(version),
        Reply::Info {
            parent,
            depth,
            frozen,
        } => {
            put_parent(parent, out);
            out.put_u32(depth);
            put_flag(frozen, out);
        }
        Reply::Opened { cursor } => out.put_u64(cursor),
        Reply::Stat {
            versions,
            updates,
            changes,
            cursors,
        } => {
            out.put_u32(versions);
            out.put_u32(updates);
            out.put_u32(changes);
            out.put_u32(cursors);
        }
        Reply::Refused(Refusal::Damaged { block }) => out.put_u32(block),
        _ => {}
    }
}

/// Writes a reply's frame: the spelling of these and no others. Takes no memory, and copies each pair once.
pub fn write_reply(tag: u32, reply: &Reply, pairs: &PairBuf, out: &mut OutBuf)
    requires none { out.old ≡ [] }
    requires found { reply.now ≡ Reply.Found → length pairs.now ≡ 1 }
    ensures ok { out.new ≡ frame (reply_body tag (as_told reply.now pairs.now)) }
    ensures len { length out.new ≤ 328460 }
{
    out.begin(tag);
    out.put_u8(reply_status(*reply));
    put_fields(*reply, pairs, out);
    out.end();
}

/// A refusal without fields, by its status byte.
#[tactic(auto, unfolding(crate::specs::Fields::refusal_in))]
fn refusal_of(status: u8) -> Option<Refusal>
    ensures { result ≡ refusal_in status }
{
    match status {
        16 => Some(Refusal::UnknownVersion),
        17 => Some(Refusal::Frozen),
        18 => Some(Refusal::UnknownCursor),
        19 => Some(Refusal::VersionLimit),
        20 => Some(Refusal::ChangeLimit),
        21 => Some(Refusal::CursorLimit),
        22 => Some(Refusal::Malformed),
        23 => Some(Refusal::KeySize),
        24 => Some(Refusal::ValueSize),
        25 => Some(Refusal::ScanSize),
        26 => Some(Refusal::FrameTooLong),
        27 => Some(Refusal::Root),
        32 => Some(Refusal::NoMemory),
        33 => Some(Refusal::DeviceFault),
        _ => None,
    }
}

/// A reply without fields, by its status byte.
#[tactic(auto, unfolding(crate::specs::Fields::simple_reply))]
fn simple_of(status: u8) -> Option<Reply>
    ensures { result ≡ simple_reply status }
{
    match status {
        0 => Some(Reply::Done),
        2 => Some(Reply::Absent),
        _ => {
            let refusal = refusal_of(status)?;
            Some(Reply::Refused(refusal))
        }
    }
}

/// A version's place in the tree, and nothing behind it.
#[tactic(auto, unfolding(crate::specs::Fields::plain_reply_in, crate::specs::Fields::info_in, crate::specs::Fields::all_of, crate::specs::Fields::both))]
fn info_of(fields: &[u8]) -> Option<Reply>
    ensures { result ≡ plain_reply_in 5 fields.now }
{
    let (parent, rest) = parent_then(fields)?;
    let (depth, rest) = u32_then(rest)?;
    let (frozen, rest) = flag_then(rest)?;
    if !rest.is_empty() {
        return None;
    }
    Some(Reply::Info {
        parent,
        depth,
        frozen,
    })
}

/// The numbers of a store, and nothing behind them.
#[tactic(auto, unfolding(crate::specs::Fields::plain_reply_in, crate::specs::Fields::stat_in, crate::specs::Fields::all_of, crate::specs::Fields::both))]
fn stat_of(fields: &[u8]) -> Option<Reply>
    ensures { result ≡ plain_reply_in 7 fields.now }
{
    let (versions, rest) = u32_then(fields)?;
    let (updates, rest) = u32_then(rest)?;
    let (changes, rest) = u32_then(rest)?;
    let (cursors, rest) = u32_then(rest)?;
    if !rest.is_empty() {
        return None;
    }
    Some(Reply::Stat {
        versions,
        updates,
        changes,
        cursors,
    })
}

/// The new version, and nothing behind it.
#[tactic(auto, unfolding(crate::specs::Fields::plain_reply_in))]
fn made_of(fields: &[u8]) -> Option<Reply>
    ensures { result ≡ plain_reply_in 4 fields.now }
{
    let version = sole_u32(fields)?;
    Some(Reply::Made { version })
}

/// The new cursor, and nothing behind it.
#[tactic(auto, unfolding(crate::specs::Fields::plain_reply_in))]
fn opened_of(fields: &[u8]) -> Option<Reply>
    ensures { result ≡ plain_reply_in 6 fields.now }
{
    let cursor = sole_u64(fields)?;
    Some(Reply::Opened { cursor })
}

/// The block that is damaged, and nothing behind it.
#[tactic(auto, unfolding(crate::specs::Fields::plain_reply_in))]
fn damaged_of(fields: &[u8]) -> Option<Reply>
    ensures { result ≡ plain_reply_in 34 fields.now }
{
    let block = sole_u32(fields)?;
    Some(Reply::Refused(Refusal::Damaged { block }))
}

/// A reply without pairs, by its status byte and fields.
#[tactic(auto, unfolding(crate::specs::Fields::plain_reply_in))]
fn plain_of(status: u8, fields: &[u8]) -> Option<Reply>
    ensures { result ≡ plain_reply_in status fields.now }
{
    match status {
        4 => made_of(fields),
        5 => info_of(fields),
        6 => opened_of(fields),
        7 => stat_of(fields),
        34 => damaged_of(fields),
        _ => {
            if !fields.is_empty() {
                return None;
            }
            simple_of(status)
        }
    }
}

/// The value of a reply to a look-up, all of the fields.
#[tactic(auto, unfolding(crate::specs::Fields::reply_value_in, crate::specs::Fields::all_of))]
fn value_of(fields: &[u8]) -> Option<&[u8]>
    ensures ok { Finds (λ x. x.now) result (reply_value_in fields.now) }
    ensures fits { IfSome result (λ x. length x.now ≤ VALUE_MAX) }
{
    let (value, rest) = counted_bytes_then(fields)?;
    if !rest.is_empty() || !value_ok(value) {
        return None;
    }
    Some(value)
}

/// A pair of a page.
#[tactic(auto, unfolding(crate::specs::Fields::pair_then, crate::specs::Fields::both))]
fn pair_then(bytes: &[u8]) -> Option<(&[u8], &[u8], &[u8])>
    ensures ok { Finds (λ x. ((x.0.now, x.1.now), x.2.now)) result (pair_then bytes.now) }
    ensures fits { IfSome result (λ x. IsPair (x.0.now, x.1.now)) }
{
    let (key, rest) = counted_bytes_then(bytes)?;
    let (value, rest) = counted_bytes_then(rest)?;
    if !key_ok(key) || !value_ok(value) {
        return None;
    }
    Some((key, value, rest))
}

/// So many pairs, one after the other, and what follows them.
#[tactic(auto, using(crate::proofs::PageLemmas::continued_none, crate::proofs::PageLemmas::pair_read, crate::proofs::PageLemmas::pair_missing, crate::proofs::PageLemmas::pairs_read))]
fn pairs_then<'a>(count: u16, bytes: &'a [u8], pairs: &mut PairBuf) -> Option<&'a [u8]>
    requires none { pairs.old ≡ [] }
    requires room { count ≤ PAIRS_MAX }
    ensures ok { Finds (λ x. (pairs.new, x.now)) result (pairs_then count bytes.now) }
{
    let mut rest = bytes;
    for _ in 0..count {
        let (key, value, behind) = pair_then(rest)?;
        pairs.push(key, value);
        rest = behind;
    }
    Some(rest)
}

/// A number of pairs and so many pairs, and what follows them.
#[tactic(auto, unfolding(crate::specs::Fields::listed_then))]
fn listed_then<'a>(bytes: &'a [u8], pairs: &mut PairBuf) -> Option<&'a [u8]>
    requires none { pairs.old ≡ [] }
    ensures ok { Finds (λ x. (pairs.new, x.now)) result (listed_then bytes.now) }
{
    let (count, rest) = u16_then(bytes)?;
    if count as usize > PAIRS_MAX {
        return None;
    }
    pairs_then(count, rest, pairs)
}

/// A page, all of the fields: whether others follow. Its pairs stand in the buffer.
#[tactic(auto, unfolding(crate::specs::Fields::page_in, crate::specs::Fields::all_of, crate::specs::Fields::both))]
fn page_of(fields: &[u8], pairs: &mut PairBuf) -> Option<bool>
    requires none { pairs.old ≡ [] }
    ensures ok { Finds (λ more. (more, pairs.new)) result (page_in fields.now) }
{
    let (more, rest) = flag_then(fields)?;
    let rest = listed_then(rest, pairs)?;
    if !rest.is_empty() {
        return None;
    }
    Some(more)
}

/// A status byte and its fields, all of the bytes.
#[tactic(auto, unfolding(crate::specs::Fields::answer_in))]
fn answer_of(status: u8, fields: &[u8], pairs: &mut PairBuf) -> Option<Reply>
    requires none { pairs.old ≡ [] }
    ensures ok { Finds (λ r. as_told r pairs.new) result (answer_in status fields.now) }
{
    if status == 1 {
        let value = value_of(fields)?;
        pairs.push(b"?", value);
        return Some(Reply::Found);
    }
    if status == 3 {
        let more = page_of(fields, pairs)?;
        return Some(Reply::Pairs { more });
    }
    plain_of(status, fields)
}

/// A tag and a reply, all of the bytes.
#[tactic(auto, unfolding(crate::specs::Fields::reply_in))]
fn reply_of(body: &[u8], pairs: &mut PairBuf) -> Option<(u32, Reply)>
    requires none { pairs.old ≡ [] }
    ensures ok { Finds (λ r. (r.0, as_told r.1 pairs.new)) result (reply_in body.now) }
{
    let (tag, rest) = u32_then(body)?;
    let (status, fields) = u8_then(rest)?;
    let reply = answer_of(status, fields, pairs)?;
    Some((tag, reply))
}

/// The tag and the reply of a body; the pairs of a page, and the value of `Found` under the key `?`, stand in
/// `pairs`. Nothing is said of these where no reply has this body. Takes no memory, and copies each pair once.
pub fn parse_reply(body: &[u8], pairs: &mut PairBuf) -> Option<(u32, Reply)>
    ensures found { IfSome result (λ r. SpellsReply body.now r.0 (as_told r.1 pairs.new)) }
    ensures none { IfNone result ((tag : ℕ) (a : Answer) → SpellsReply body.now tag a → ⊥) }
{
    pairs.clear();
    reply_of(body, pairs)
}
