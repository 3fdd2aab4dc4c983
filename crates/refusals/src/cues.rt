//! Cue lists and the player.
use crate::Outcome;
use sacn_cues::{Cue, CueFault, CueList, Player};
use std::alloc::{AllocError, Global};

/// A cue that sets channels 1 and 2, at once.
fn cue(alloc: Global, number: u16) -> Result<Cue, AllocError> {
    Ok(Cue {
        number,
        up: 0,
        down: 0,
        levels: vec![in alloc; (1u16, number), (2u16, 7u16)]?,
    })
}

/// Whether a player of a copy goes through the cues 1 to `count` and no more: each `go` takes channel 1 to
/// the cue's number and channel 2 to 7, and leaves channel 3 dark.
fn plays(alloc: Global, list: &CueList, count: u16) -> Result<bool, CueFault> {
    let mut player = Player::new(alloc, list.try_copy()?)?;
    for number in 1..=count {
        if player.go(0).is_err() {
            return Ok(false);
        }
        if player.level(0, 1) != number || player.level(0, 2) != 7 || player.level(0, 3) != 0 {
            return Ok(false);
        }
    }
    Ok(player.go(0).is_err())
}

// Adds a cue, again where memory was refused: the list then has the cues before it, and no more.
fn added(alloc: Global, list: &mut CueList, number: u16) -> Result<Outcome, AllocError> {
    match list.add(cue(alloc, number)?) {
        Ok(()) => Ok(Outcome::Done),
        Err(CueFault::OutOfMemory) => {
            if plays(alloc, list, number.saturating_sub(1)) != Ok(true) {
                Ok(Outcome::Wrong("a refused cue changed the list"))
            } else if list.add(cue(alloc, number)?).is_ok() {
                Ok(Outcome::Refused)
            } else {
                Ok(Outcome::Wrong("a refused cue can't be added again"))
            }
        }
        Err(_) => Ok(Outcome::Wrong("a cue")),
    }
}

// Plays a copy of the list, again where memory for the copy or its player was refused.
fn played(alloc: Global, list: &CueList) -> Outcome {
    match plays(alloc, list, 30) {
        Ok(true) => Outcome::Done,
        Err(CueFault::OutOfMemory) if plays(alloc, list, 30) == Ok(true) => Outcome::Refused,
        _ => Outcome::Wrong("the levels of a copied list"),
    }
}

/// `CueList::add`, `CueList::try_copy` and `Player::new`.
pub fn calls_made(alloc: Global) -> Result<Outcome, AllocError> {
    let mut list = CueList::new(alloc);
    let mut outcome = Outcome::Done;
    for number in 1..=30u16 {
        outcome = outcome.then(added(alloc, &mut list, number)?);
    }
    Ok(outcome.then(played(alloc, &list)))
}
