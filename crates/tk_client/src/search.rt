//! What a reader looks for next.
ghost use Rattle.std.specs.Prelude.{◌≡◌, ◌+◌, ◌-◌, ◌<◌, ◌≤◌, true, length, IfNone};
ghost use Rattle.std.specs.List.{range_with_len};
ghost use Rattle.std.specs.Option.{option_or};
ghost use Rattle.tk_frames.specs.Lists.{first_some};
ghost use Rattle.tk_words.specs.Words.{words_of};
ghost use Rattle.tk_client.specs.Asked.{shown_by};
ghost use Rattle.tk_shape.specs.Lengths.{turn_count};
ghost use Rattle.tk_client.specs.Reader.{target_in, follow_in};
ghost use Rattle.tk_client.specs.Vain.{origin_in, ShowsNothing, ShowNothing, AreSameOutside, AreOrigins};
ghost use Rattle.tk_client.specs.Searching.{follows_anew};
ghost use Rattle.tk_client.specs.Searching.{AreBelow, IsTargetOrNone};

use crate::follow::Follow;
use crate::positions::Positions;
use crate::sight::Sight;
use crate::target::Target;
use tk_words::Draws;

/// Which logs are searched: those from one place up to another. In a new epoch all their numbers
/// count as not tried yet.
#[derive(Clone, Copy)]
struct Search {
    anew: bool,
    from: usize,
    to: usize,
}

/// The number that is wanted of the first log, cyclically from a place on, of which one is.
pub(crate) fn first_from<D: Draws>(
    sight: &Sight<D>,
    follows: &[Follow],
    positions: &mut [Positions],
    anew: bool,
    place: usize,
) -> Option<Target>
    requires follows_in { AreBelow sight.now.shape.now.logs follows.now }
    requires place_in { place ≤ length follows.now }
    requires positions_each { length positions.old ≡ length follows.now }
    ensures first { let shape = sight.now.shape.now in
        let words = words_of shape (D.book sight.now.draws.now) in
        let shown = shown_by sight.now.filter.now words in
        let gives = target_in shape shown (follows_anew anew follows.now) in
        result ≡ option_or (first_some gives (range_with_len place (length follows.now - place)))
        (first_some gives (range_with_len 0 (place - 0))) }
    ensures in_range { IsTargetOrNone sight.now.shape.now (length follows.now) result }
    ensures vain { let shape = sight.now.shape.now in IfNone result
        (ShowNothing (turn_count shape) shape.ahead sight.now.filter.now positions.new
        (follows_anew anew follows.now) 0 (length follows.now)) }
{
    let behind = Search {
        anew,
        from: place,
        to: follows.len(),
    };
    if let Some(target) = first_target(sight, follows, positions, behind) {
        return Some(target);
    }
    let before = Search {
        anew,
        from: 0,
        to: place,
    };
    first_target(sight, follows, positions, before)
}

/// The number that is wanted of the first of the logs that are searched of which one is.
fn first_target<D: Draws>(
    sight: &Sight<D>,
    follows: &[Follow],
    positions: &mut [Positions],
    search: Search,
) -> Option<Target>
    requires follows_in { AreBelow sight.now.shape.now.logs follows.now }
    requires from_in { search.from ≤ search.to }
    requires to_in { search.to ≤ length follows.now }
    requires positions_each { length positions.old ≡ length follows.now }
    ensures first { let shape = sight.now.shape.now in
        let words = words_of shape (D.book sight.now.draws.now) in
        let shown = shown_by sight.now.filter.now words in
        let gives = target_in shape shown (follows_anew search.anew follows.now) in
        result ≡ first_some gives (range_with_len search.from (search.to - search.from)) }
    ensures in_range { IsTargetOrNone sight.now.shape.now (length follows.now) result }
    ensures vain { let shape = sight.now.shape.now in IfNone result
        (ShowNothing (turn_count shape) shape.ahead sight.now.filter.now positions.new
        (follows_anew search.anew follows.now) search.from search.to) }
    ensures others { AreSameOutside search.from search.to positions.old positions.new }
{
    for place in search.from..search.to {
        if let Some(target) = target_at(sight, follows, positions, search.anew, place) {
            return Some(target);
        }
    }
    None
}

/// The number that is wanted of the log at a place, if one is.
fn target_at<D: Draws>(
    sight: &Sight<D>,
    follows: &[Follow],
    positions: &mut [Positions],
    anew: bool,
    place: usize,
) -> Option<Target>
    requires follows_in { AreBelow sight.now.shape.now.logs follows.now }
    requires place_in { place < length follows.now }
    requires positions_each { length positions.old ≡ length follows.now }
    ensures target { let shape = sight.now.shape.now in
        let words = words_of shape (D.book sight.now.draws.now) in
        let shown = shown_by sight.now.filter.now words in
        result ≡ target_in shape shown (follows_anew anew follows.now) place }
    ensures in_range { IsTargetOrNone sight.now.shape.now (length follows.now) result }
    ensures vain { let shape = sight.now.shape.now in IfNone result
        (ShowsNothing (turn_count shape) shape.ahead sight.now.filter.now
        (origin_in positions.new place) (follow_in (follows_anew anew follows.now) place)) }
    ensures others { AreSameOutside place (place + 1) positions.old positions.new }
{
    let follow = &follows[place];
    let kept = &mut positions[place];
    let ahead = follow.wanted(sight, kept, anew)?;
    Some(Target {
        place,
        log: follow.log(),
        number: follow.next() as u32 + ahead,
        ahead,
    })
}

/// Whether the positions that are kept of each of these logs come from where those of a book do.
pub(crate) fn come_from<D: Draws>(
    sight: &Sight<D>,
    follows: &[Follow],
    positions: &[Positions],
) -> bool
    requires follows_in { AreBelow sight.now.shape.now.logs follows.now }
    requires positions_each { length positions.now ≡ length follows.now }
    ensures { let shape = sight.now.shape.now in result ≡ true
        → AreOrigins shape (D.book sight.now.draws.now) follows.now positions.now (length follows.now) }
{
    for place in 0..follows.len() {
        let log = follows[place].log();
        if !positions[place].is_of(sight.shape, sight.draws, log) {
            return false;
        }
    }
    true
}
