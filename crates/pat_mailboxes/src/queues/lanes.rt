// The lanes of a queue: each message stands in that of its tag, so that a guard walks past none that it has no clause for.
ghost use Rattle.std.specs.Prelude.{◌≡◌, ℕ, ◌+◌, ◌*◌, ◌<◌, ◌≤◌, [], ◌∷◌, ◌++◌, length, map, get_or, find, nat_eq, option_copied, option_map, remove, slice_get, slice_set, Some, IfOk, IfSome, IfNone};
ghost use Rattle.std.specs.List.Sorted.{IsPermutation};
ghost use Rattle.pat_limits.specs.Limits.{number_count};
ghost use Rattle.pat_mailboxes.specs.queues.Lanes.{AreLanes, HasNumber, IsNumberedAt, Rise, earlier, lane_of, last_of, later, queue_in};
ghost use Rattle.pat_mailboxes.specs.queues.Pooled.{IsRegion, contents, spare_in};
ghost use Rattle.pat_mailboxes.specs.queues.Queues.{Finds, NonePasses};

use crate::queues::region::{Region, value_at};
use crate::queues::test::{Numbered, Test};
use pat_reduce::Message;
use std::alloc::{AllocError, Global};

/// How many lanes a queue has. Tags of an interface that has no more have one each.
pub const LANES: u32 = 8;

/// The lane of a tag.
pub fn lane_of(tag: u8) -> u32
    ensures { result ≡ lane_of tag }
{
    tag as u32 % LANES
}

// The chain of a lane.
fn chain_of(queue: u32, lane: u32) -> u32
    requires lane { lane < 8 }
    requires fits { queue * 8 + 8 ≤ number_count }
    ensures { result ≡ queue * 8 + lane }
{
    queue * LANES + lane
}

/// The first message of a queue that passes a test.
pub(crate) fn first_in<'a, P: Test>(
    region: &'a Region<Message>,
    queue: u32,
    test: &P,
) -> Option<&'a Message>
    requires region { IsRegion region.now }
    requires there { queue * 8 + 8 ≤ length (contents region.now) }
    requires fits { queue * 8 + 8 ≤ number_count }
    requires lanes { AreLanes (contents region.now) }
    ensures { option_copied result ≡ find (P.passes test.now) (queue_in (contents region.now) queue) }
{
    let mut first = None;
    let mut lane = LANES;
    while lane > 0 {
        lane -= 1;
        first = earlier(first_of(region, queue, lane, test), first);
    }
    first
}

// The first message of a lane that passes a test.
fn first_of<'a, P: Test>(
    region: &'a Region<Message>,
    queue: u32,
    lane: u32,
    test: &P,
) -> Option<&'a Message>
    requires region { IsRegion region.now }
    requires lane { lane < 8 }
    requires there { queue * 8 + 8 ≤ length (contents region.now) }
    requires fits { queue * 8 + 8 ≤ number_count }
    requires lanes { AreLanes (contents region.now) }
    ensures { option_copied result ≡ find (P.passes test.now) (get_or (contents region.now) (queue * 8 + lane) []) }
{
    if !test.may_pass(lane) {
        return None;
    }
    match find_in(region, chain_of(queue, lane), test) {
        Some((_, message)) => Some(message),
        None => None,
    }
}

// The first message of a chain that passes a test, and its place.
fn find_in<'a, P: Test>(
    region: &'a Region<Message>,
    chain: u32,
    test: &P,
) -> Option<(u32, &'a Message)>
    requires region { IsRegion region.now }
    requires there { chain < length (contents region.now) }
    ensures { Finds (P.passes test.now) (get_or (contents region.now) chain []) (option_map (λ f. (f.0, f.1.now)) result) }
{
    let nodes = region.chains.queues[chain as usize];
    let mut node = nodes.first;
    for place in 0..nodes.len {
        let message = value_at(region.held.as_slice(), node);
        if test.passes(message) {
            return Some((place, message));
        }
        node = region.chains.links[node as usize];
    }
    None
}

/// Appends a message to its lane.
pub(crate) fn push_in(region: &mut Region<Message>, queue: u32, message: Message)
    requires region { IsRegion region.old }
    requires there { queue * 8 + 8 ≤ length (contents region.old) }
    requires fits { queue * 8 + 8 ≤ number_count }
    requires spare { 0 < spare_in region.old }
    ensures region { IsRegion region.new }
    ensures spare { spare_in region.new + 1 ≡ spare_in region.old }
    ensures contents { contents region.new ≡ slice_set (contents region.old) (queue * 8 + lane_of message.tag)
        (get_or (contents region.old) (queue * 8 + lane_of message.tag) [] ++ message ∷ []) }
{
    let chain = chain_of(queue, lane_of(message.tag));
    region.push(chain, message);
}

/// Takes the message of a number out of the lane of a tag.
pub(crate) fn take_in(region: &mut Region<Message>, queue: u32, tag: u8, number: u32) -> Message
    requires region { IsRegion region.old }
    requires fits { queue * 8 + 8 ≤ number_count }
    requires there { HasNumber number (get_or (contents region.old) (queue * 8 + lane_of tag) []) }
    ensures region { IsRegion region.new }
    ensures spare { spare_in region.new ≡ spare_in region.old + 1 }
    ensures number { result.number ≡ number }
    ensures contents { (place : ℕ) × (slice_get (get_or (contents region.old) (queue * 8 + lane_of tag) []) place ≡ Some result)
        × (contents region.new ≡ slice_set (contents region.old) (queue * 8 + lane_of tag)
        (remove (get_or (contents region.old) (queue * 8 + lane_of tag) []) place)) }
{
    let chain = chain_of(queue, lane_of(tag));
    match place_in(region, chain, number) {
        Some(place) => region.take(chain, place),
        // The message is there.
        None => unreachable!(),
    }
}

// The place of the message of a number in a chain.
fn place_in(region: &Region<Message>, chain: u32, number: u32) -> Option<u32>
    requires region { IsRegion region.now }
    requires there { chain < length (contents region.now) }
    ensures some { IfSome result (λ i. IsNumberedAt number (get_or (contents region.now) chain []) i) }
    ensures none { IfNone result (NonePasses (λ m. nat_eq number m.number) (get_or (contents region.now) chain [])) }
{
    match find_in(region, chain, &Numbered { number }) {
        Some((place, _)) => Some(place),
        None => None,
    }
}

/// The last message of a queue.
pub(crate) fn last_in(region: &Region<Message>, queue: u32) -> Option<&Message>
    requires region { IsRegion region.now }
    requires there { queue * 8 + 8 ≤ length (contents region.now) }
    requires fits { queue * 8 + 8 ≤ number_count }
    requires lanes { AreLanes (contents region.now) }
    ensures { option_copied result ≡ last_of (queue_in (contents region.now) queue) }
{
    let mut last = None;
    let mut lane = LANES;
    while lane > 0 {
        lane -= 1;
        last = later(last_of(region, chain_of(queue, lane)), last);
    }
    last
}

// The last message of a chain.
fn last_of(region: &Region<Message>, chain: u32) -> Option<&Message>
    requires region { IsRegion region.now }
    requires there { chain < length (contents region.now) }
    ensures { option_copied result ≡ last_of (get_or (contents region.now) chain []) }
{
    let count = region.len(chain);
    if count == 0 {
        return None;
    }
    Some(region.get(chain, count - 1))
}

/// How many messages a queue has, where it has at most so many.
pub(crate) fn count_in(region: &Region<Message>, queue: u32, most: u32) -> u32
    requires region { IsRegion region.now }
    requires there { queue * 8 + 8 ≤ length (contents region.now) }
    requires fits { queue * 8 + 8 ≤ number_count }
    requires few { length (queue_in (contents region.now) queue) ≤ most }
    ensures { result ≡ length (queue_in (contents region.now) queue) }
{
    // No sum on the way is above it.
    let _ = most;
    let mut count = 0;
    let mut lane = LANES;
    while lane > 0 {
        lane -= 1;
        count += region.len(chain_of(queue, lane));
    }
    count
}

/// The messages of a queue, in order of number.
pub(crate) fn list_in(
    alloc: Global,
    region: &Region<Message>,
    queue: u32,
) -> Result<Vec<&Message>, AllocError>
    requires region { IsRegion region.now }
    requires there { queue * 8 + 8 ≤ length (contents region.now) }
    requires fits { queue * 8 + 8 ≤ number_count }
    ensures all { IfOk result (λ ms. IsPermutation (queue_in (contents region.now) queue) (map (λ m. m.now) ms.items)) }
    ensures order { IfOk result (λ ms. Rise (map (λ m. m.now) ms.items)) }
{
    let mut messages = gather(alloc, region, queue)?;
    messages.sort_by_key(|message| message.number)?;
    Ok(messages)
}

// The messages of a queue, lane by lane.
fn gather(alloc: Global, region: &Region<Message>, queue: u32) -> Result<Vec<&Message>, AllocError>
    requires region { IsRegion region.now }
    requires there { queue * 8 + 8 ≤ length (contents region.now) }
    requires fits { queue * 8 + 8 ≤ number_count }
    ensures { IfOk result (λ ms. IsPermutation (queue_in (contents region.now) queue) (map (λ m. m.now) ms.items)) }
{
    let mut messages = Vec::new(alloc);
    let mut lane = LANES;
    while lane > 0 {
        lane -= 1;
        let mut more = region.list(alloc, chain_of(queue, lane))?;
        more.append(&mut messages)?;
        messages = more;
    }
    Ok(messages)
}

// The earlier one of two messages, the first where neither is.
fn earlier<'a>(one: Option<&'a Message>, other: Option<&'a Message>) -> Option<&'a Message>
    ensures { option_copied result ≡ earlier (option_copied one.entry) (option_copied other.entry) }
{
    match (one, other) {
        (Some(first), Some(second)) => {
            if second.number < first.number {
                Some(second)
            } else {
                Some(first)
            }
        }
        (Some(first), None) => Some(first),
        (None, second) => second,
    }
}

// The later one of two messages, the second where neither is.
fn later<'a>(one: Option<&'a Message>, other: Option<&'a Message>) -> Option<&'a Message>
    ensures { option_copied result ≡ later (option_copied one.entry) (option_copied other.entry) }
{
    match (one, other) {
        (Some(first), Some(second)) => {
            if second.number < first.number {
                Some(first)
            } else {
                Some(second)
            }
        }
        (Some(first), None) => Some(first),
        (None, second) => second,
    }
}
