ghost use Rattle.std.specs.Prelude.{◌≡◌, ◌<◌, ◌^◌, MatchBool, IfOk, length};
ghost use Rattle.fm_script.specs.Players.{ArePlayers, IsPlayer};
ghost use Rattle.fm_script.specs.Runs.{AllPlayed};

use crate::player::Player;
use fm_base::Caller;
use fm_script_lines::count_lines;
use fm_script_text::{Line, Who};
use std::alloc::{AllocError, Global};

/// A worker for each number up to the last, with room for its replies and names.
pub(crate) fn players_of(
    alloc: Global,
    lines: &[Line],
    starts: &[usize],
) -> Result<Vec<Player>, AllocError>
    requires { length starts.now < 2 ^ 32 }
    ensures { IfOk result (λ players. ArePlayers lines.now starts.now players.items) }
{
    let mut players = Vec::new(alloc);
    for (place, start) in starts.iter().enumerate() {
        let player = player_of(alloc, lines, place as u32 + 1, *start)?;
        players.push(player)?;
    }
    Ok(players)
}

/// The worker of this number, that has played nothing.
fn player_of(alloc: Global, lines: &[Line], number: u32, start: usize) -> Result<Player, AllocError>
    ensures { IfOk result (IsPlayer lines.now number start) }
{
    let count = count_lines(lines, Who::Worker(number));
    let replies = Vec::with_capacity(alloc, count)?;
    let lent = Vec::with_capacity(alloc, count)?;
    Ok(Player {
        number,
        start,
        caller: Caller { number: 0, term: 0 },
        replies,
        lent,
        cut: None,
    })
}

/// Whether all of them played their lines, so that memory was wanting to none.
pub(crate) fn all_played(players: &[Player]) -> bool
    ensures { MatchBool result (AllPlayed players.now) (¬ (AllPlayed players.now)) }
{
    for player in players {
        if player.cut.is_some() {
            return false;
        }
    }
    true
}
