ghost use Rattle.std.specs.Prelude.{◌≡◌, None};
ghost use Rattle.fm_script.specs.Players.{CanPlay, PlayedAs, playing};

use crate::player::Player;
use fm_arena::Shared;
use fm_base::Memory;
use fm_io::{AtGate, Gate, Turns};
use fm_script_lines::{Numbers, Standing, Table, count_lines, play};
use fm_script_text::{Line, Who};
use fm_workers_crew::Work;
use std::alloc::{AllocError, AllocGlobal, Global};
use std::random::RandomSource;
use std::sync::Wait;

/// What workers play: the script's lines, over the names of the first ones.
#[derive(Drop)]
pub(crate) struct Lines<'a, R, G> {
    pub(crate) rt: &'a R,
    pub(crate) gate: &'a G,
    pub(crate) names: &'a Numbers,
    pub(crate) lines: &'a [Line],
    pub(crate) firsts: &'a [Standing],
}

/// Each worker plays its lines.
impl<'a, R: Wait + Sync + RandomSource + AllocGlobal, G: Gate> Work<Player> for Lines<'a, R, G> {
    ghost use Rattle.fm_script.specs.Players.{CanPlay, Plays, playing};
    ghost use Rattle.fm_script.specs.Staying.{can_play_later};

    ghost can = { λ w. CanPlay (playing w.names.now w.lines.now w.firsts.now) };

    ghost does = { λ w. Plays (playing w.names.now w.lines.now w.firsts.now) };

    fn work(&self, alloc: Global, memory: &mut Shared, player: &mut Player) {
        let turns = AtGate {
            gate: self.gate,
            worker: player.number,
        };
        let played = play_as(
            self.rt,
            alloc,
            memory,
            self.names,
            self.lines,
            self.firsts,
            &turns,
            player,
        );
        player.caller = memory.caller();
        player.cut = played.err();
    }

    ghost stays = { λ w p q t same. can_play_later (playing w.names.now w.lines.now w.firsts.now) p q t };
}

/// Plays a worker's lines.
fn play_as<R: Wait + RandomSource + AllocGlobal, T: Turns>(
    rt: &R,
    alloc: Global,
    memory: &mut Shared,
    names: &Numbers,
    lines: &[Line],
    firsts: &[Standing],
    turns: &T,
    player: &mut Player,
) -> Result<(), AllocError>
    requires outside { memory.old.inside ≡ None }
    requires can { CanPlay (playing names.now lines.now firsts.now) memory.old player.old }
    ensures { PlayedAs (playing names.now lines.now firsts.now) memory.old memory.new player.old
        player.new result }
{
    let who = Who::Worker(player.number);
    let count = count_lines(lines, who);
    let mut table = Table::new(alloc, names, firsts, player.start, count)?;
    let played = play(
        rt,
        alloc,
        memory,
        &mut table,
        lines,
        who,
        &mut player.replies,
        turns,
    );
    table.settle(rt, memory, &mut player.lent);
    played
}
