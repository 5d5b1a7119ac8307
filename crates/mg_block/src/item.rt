ghost use Rattle.std.specs.Prelude.{◌≡◌, ◌↔◌, ℕ, ◌<◌, List, ◌++◌, length, take, IsTrue, IfSome, IfNone};
ghost use Rattle.mg_block.specs.Item.{counted, spelled, Extends};
ghost use Rattle.mg_block.specs.Block.{NextItem};
ghost use Rattle.mg_block.specs.declared.pair.Pair.{Pair};

use super::key::KEY_LIMIT;

/// One item of a block, as it is spelled.
#[derive(Clone, Copy)]
pub struct Item<'a> {
    /// How many bytes the key shares with the one before it.
    pub shared: u8,
    /// The rest of the key.
    pub rest: &'a [u8],
    pub payload: &'a [u8],
}

/// The item of the next pair behind the key `previous`, and the bytes that follow it.
pub fn next_item<'a>(previous: &[u8], bytes: &'a [u8]) -> Option<(Item<'a>, &'a [u8])>
    ensures found { IfSome result (λ next.
        NextItem previous.now bytes.now
        (record { key = take next.0.shared previous.now ++ next.0.rest.now; payload = next.0.payload.now })
        next.1.now) }
    ensures extends { IfSome result (λ next. Extends previous.now next.0.shared next.0.rest.now) }
    ensures none { IfNone result ((pair : Pair) (rest : List ℕ) → NextItem previous.now bytes.now pair rest → ⊥) }
{
    let (item, rest) = split_item(bytes)?;
    if extends(previous, item.shared, item.rest) {
        Some((item, rest))
    } else {
        None
    }
}

/// The item at the front of the bytes, whatever stands before it, and the bytes that follow it.
fn split_item(bytes: &[u8]) -> Option<(Item<'_>, &[u8])>
    ensures found { IfSome result (λ split.
        bytes.now ≡ spelled split.0.shared split.0.rest.now split.0.payload.now ++ split.1.now) }
    ensures payload { IfSome result (λ split. length split.0.payload.now < 256) }
    ensures none { IfNone result ((shared : ℕ) (rest payload more : List ℕ) →
        bytes.now ≡ spelled shared rest payload ++ more → ⊥) }
{
    let (shared, bytes) = bytes.split_first()?;
    let (rest, bytes) = split_counted(bytes)?;
    let (payload, bytes) = split_counted(bytes)?;
    let item = Item {
        shared: *shared,
        rest,
        payload,
    };
    Some((item, bytes))
}

/// The bytes behind their number at the front, and those that follow.
fn split_counted(bytes: &[u8]) -> Option<(&[u8], &[u8])>
    ensures found { IfSome result (λ split. bytes.now ≡ counted split.0.now ++ split.1.now) }
    ensures bound { IfSome result (λ split. length split.0.now < 256) }
    ensures none { IfNone result ((list more : List ℕ) → bytes.now ≡ counted list ++ more → ⊥) }
{
    let (count, bytes) = bytes.split_first()?;
    let count = usize::from(*count);
    if bytes.len() < count {
        return None;
    }
    Some(bytes.split_at(count))
}

/// Whether the key of `shared` bytes of the previous one and the rest may stand behind that one, and
/// shares no more with it.
fn extends(previous: &[u8], shared: u8, rest: &[u8]) -> bool
    ensures { IsTrue result ↔ Extends previous.now shared rest.now }
{
    let shared = usize::from(shared);
    if rest.is_empty() || shared > previous.len() || shared + rest.len() > KEY_LIMIT {
        return false;
    }
    shared == previous.len() || previous[shared] < rest[0]
}
