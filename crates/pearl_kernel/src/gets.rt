// Of each task how far the GET that it offers has come in the bytes that wait at its terminal. It goes on where more come
// in, and begins anew where the oldest are gone.

ghost use Rattle.std.specs.Prelude.{◌≡◌, ◌<◌, ◌≤◌, ◌++◌, ℕ, All, List, Some, IfSome, MatchOption, true, false, drop, length, nat_le, slice_get, slice_set, if◌then◌else◌};
ghost use Rattle.pearl_value.specs.WellFormed.{IsTyped};
ghost use Rattle.pearl_value.specs.declared.kind.Kind as kind;
ghost use Rattle.pearl_format.specs.declared.item.Item as item;
ghost use Rattle.pearl_exchange.specs.Offers.{action_of};
ghost use Rattle.pearl_rules.specs.declared.action.Action.TheVariants.{Get};
ghost use Rattle.pearl_rules.specs.Core.{Channel as Standing, Bytes};
ghost use Rattle.pearl_rules.specs.Devices.{bytes_in, terminal_room};
ghost use Rattle.pearl_rules.specs.Tables.{items_or_none};
ghost use Rattle.pearl_rules.specs.Runs.{kept_at};
ghost use Rattle.pearl_scan.specs.Progress.{CanGoOn, line_ends};
ghost use Rattle.pearl_scan.specs.declared.progress.Progress as Going;
ghost use Rattle.pearl_kernel.specs.Channels.{HasBytes};
ghost use Rattle.pearl_kernel.specs.Listening.{AreListening};
ghost use Rattle.pearl_kernel.specs.Gets.{AreAsked, Comes, IsAsked, IsAskedOf, IsKept, gets_at, is_get, progress_at};
ghost use Rattle.pearl_kernel.specs.Names.{HasKinds};

use crate::alike::{are_same_items, are_same_kinds};
use crate::bid::Bid;
use crate::channel::Channel;
use crate::listening::next_at;
use pearl_exchange::offer::{Offer, What};
use pearl_format::item::Item;
use pearl_scan::progress::{Progress, line_ends};
use pearl_value::listing::Listing;

/// The items of a format; a number that names none means no items.
pub fn items_of(formats: &[Listing<Item>], format: u32) -> &[Item]
    ensures { result.now ≡ items_or_none (slice_get formats.now format) }
{
    match formats.get(format as usize) {
        None => &[],
        Some(items) => items.as_slice(),
    }
}

/// The bytes that wait at a terminal.
pub fn bytes_of(channels: &[Channel], device: u32) -> &[u8]
    ensures bytes { result.now ≡ bytes_in (slice_get channels.now device) }
    ensures within { length result.now ≤ 4096 }
{
    match channels.get(device as usize) {
        None => &[],
        Some(channel) => channel.bytes(),
    }
}

/// Bytes come in at a terminal, where there is room for all of them. The answer tells whether there is.
pub fn add_at(channels: &mut Vec<Channel>, device: u32, text: &[u8]) -> bool
    requires terminal { HasBytes (slice_get channels.old.items device) }
    requires typed { All IsTyped text.now }
    ensures room { result ≡ nat_le (length (bytes_in (slice_get channels.old.items device) ++ text.now)) terminal_room }
    ensures waiting { channels.new.items ≡ (if result then
        slice_set channels.old.items device (Bytes (bytes_in (slice_get channels.old.items device) ++ text.now))
        else channels.old.items) }
{
    channels[device as usize].add(text)
}

/// The oldest bytes of a terminal, so many of them, are gone.
pub fn drop_at(channels: &mut Vec<Channel>, device: u32, used: usize)
    requires { HasBytes (slice_get channels.old.items device) }
    ensures { channels.new.items ≡
        slice_set channels.old.items device (Bytes (drop used (bytes_in (slice_get channels.old.items device)))) }
{
    channels[device as usize].drop_bytes(used);
}

/// A task's new offer, where it is a GET, goes over what waits at its terminal.
pub fn ask_first(
    progress: &mut Vec<Progress>,
    task: usize,
    offer: &Offer,
    formats: &[Listing<Item>],
    channels: &[Channel],
)
    requires task { task < length progress.old.items }
    requires kinds { HasKinds (action_of offer.now) }
    ensures { IsKept formats.now channels.now task (action_of offer.now) progress.old.items progress.new.items }
{
    if let Some((device, format)) = get_of(offer) {
        let bytes = bytes_of(channels, device);
        let items = items_of(formats, format);
        let kinds = offer.kinds.as_slice();
        progress[task] = Progress::start().go_on(items, kinds, bytes, None);
    }
}

/// The GETs at a terminal go on over what waits there, or begin anew. It looks at no task that waits elsewhere.
pub fn ask_each(
    progress: &mut Vec<Progress>,
    offers: &[Bid],
    listening: &[u64],
    formats: &[Listing<Item>],
    channels: &[Channel],
    device: u32,
    anew: bool,
)
    requires asked { (old : List Standing) × AreAsked offers.now formats.now old progress.old.items × Comes anew device old channels.now }
    requires listening { AreListening (length channels.now) offers.now listening.now }
    ensures { AreAsked offers.now formats.now channels.now progress.new.items }
{
    let lines = known_ends(channels, device, anew);
    let mut known = None;
    let mut after = None;
    while let Some(task) = next_at(listening, device, after) {
        let bid = &offers[task];
        let twin = twin(progress.as_slice(), offers, formats, task, known, anew);
        let from = progress[task];
        progress[task] = asked(from, twin, bid, formats, channels, device, lines, anew);
        known = last_get(bid, device, task, known);
        after = Some(task);
    }
}

// How many line ends wait at a terminal; where all is asked anew nobody needs that.
fn known_ends(channels: &[Channel], device: u32, anew: bool) -> Option<usize>
    ensures { IfSome result (λ n. n ≡ line_ends (bytes_in (slice_get channels.now device))) }
{
    if anew {
        return None;
    }
    Some(line_ends(bytes_of(channels, device)))
}

// How far the GET of an earlier task has come, where all is asked anew and this task waits for the same.
fn twin(
    progress: &[Progress],
    offers: &[Bid],
    formats: &[Listing<Item>],
    task: usize,
    known: Option<usize>,
    anew: bool,
) -> Option<Progress>
    requires task { task < length offers.now }
    requires size { length progress.now ≡ length offers.now }
    requires known { IfSome known (λ u. u < task) }
    ensures { (channels : List Standing) → ((u : ℕ) → u < task →
        IsAsked formats.now channels (kept_at offers.now u) (progress_at progress.now u)) →
        IfSome result (IsAsked formats.now channels (kept_at offers.now task)) }
{
    if !anew {
        return None;
    }
    let Some(known) = known else {
        return None;
    };
    if are_twins(formats, &offers[task], &offers[known]) {
        Some(progress[known])
    } else {
        None
    }
}

// Whether two tasks offer GETs that wait for the same.
fn are_twins(formats: &[Listing<Item>], bid: &Bid, other: &Bid) -> bool
    ensures { result ≡ true → (channels : List Standing) (p : Going.Progress) →
        IsAsked formats.now channels other.now p → IsAsked formats.now channels bid.now p }
{
    let Some(offer) = bid.offer() else {
        return false;
    };
    let Some(other) = other.offer() else {
        return false;
    };
    are_alike(formats, offer, other)
}

// Whether two offers wait for the same bytes of a terminal, and read the same of them.
fn are_alike(formats: &[Listing<Item>], offer: &Offer, other: &Offer) -> bool
    ensures { result ≡ true → (channels : List Standing) (p : Going.Progress) →
        IsAskedOf formats.now channels (action_of other.now) p → IsAskedOf formats.now channels (action_of offer.now) p }
{
    let What::Get { device, format } = offer.what else {
        return false;
    };
    let What::Get {
        device: terminal,
        format: read,
    } = other.what
    else {
        return false;
    };
    if device != terminal || !are_same_items(items_of(formats, format), items_of(formats, read)) {
        return false;
    }
    are_same_kinds(offer.kinds.as_slice(), other.kinds.as_slice())
}

// The last task that offers a GET at this device, of those up to this one.
fn last_get(bid: &Bid, device: u32, task: usize, known: Option<usize>) -> Option<usize>
    requires { IfSome known (λ u. u < task) }
    ensures { IfSome result (λ u. u ≤ task) }
{
    let Some(offer) = bid.offer() else {
        return known;
    };
    match format_at(offer, device) {
        Some(_) => Some(task),
        None => known,
    }
}

// How far the GET of this offer has come, where it is one at this device; of other offers nothing changes.
fn asked(
    from: Progress,
    twin: Option<Progress>,
    bid: &Bid,
    formats: &[Listing<Item>],
    channels: &[Channel],
    device: u32,
    lines: Option<usize>,
    anew: bool,
) -> Progress
    requires twin { IfSome twin (IsAsked formats.now channels.now bid.now) }
    requires lines { IfSome lines (λ n. n ≡ line_ends (bytes_in (slice_get channels.now device))) }
    requires asked { (old : List Standing) × IsAsked formats.now old bid.now from × Comes anew device old channels.now }
    ensures { IsAsked formats.now channels.now bid.now result }
{
    if let Some(twin) = twin {
        return twin;
    }
    let Some(offer) = bid.offer() else {
        return from;
    };
    let Some(format) = format_at(offer, device) else {
        return from;
    };
    let items = items_of(formats, format);
    let kinds = offer.kinds.as_slice();
    start_from(from, anew).go_on(items, kinds, bytes_of(channels, device), lines)
}

fn start_from(from: Progress, anew: bool) -> Progress
    ensures { (items : List item.Item) (kinds : List kind.Kind) (bytes : List ℕ) →
        (anew ≡ false → CanGoOn items kinds bytes from) → CanGoOn items kinds bytes result }
{
    if anew { Progress::start() } else { from }
}

// The device and the format of a GET.
fn get_of(offer: &Offer) -> Option<(u32, u32)>
    ensures { MatchOption result (is_get (action_of offer.now) ≡ false)
        (λ get. action_of offer.now ≡ Get get.0 get.1 offer.now.kinds) }
{
    match offer.what {
        What::Get { device, format } => Some((device, format)),
        _ => None,
    }
}

// The format of a GET at this device.
fn format_at(offer: &Offer, device: u32) -> Option<u32>
    ensures { MatchOption result (gets_at device (action_of offer.now) ≡ false)
        (λ format. action_of offer.now ≡ Get device format offer.now.kinds) }
{
    match offer.what {
        What::Get {
            device: other,
            format,
        } => { if other == device { Some(format) } else { None } }
        _ => None,
    }
}
